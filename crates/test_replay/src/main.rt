// Replays the Rust's answers, stored in the file `answers`: blocks of records, each a case and what the Rust said of it.
// Payload sessions, DCS sessions and one-shot readings are put to the reader, on one owner's palette from record to record;
// colours and the ratios of P1 are compared.
#![tactic(auto)]

mod calls;
mod fields;
mod one_shot;
mod reader;
mod record;
mod report;
mod seen;
mod session;
mod trial;

use colours::Palette;
use fields::Kind;
use record::Verdict;
use std::fs::File;
use std::io;
use std::io::Read;

const BLOCK: usize = 65_536;

// The first record's place in a block, after the magic number, the checksum and three numbers.
const FIRST: usize = 20;

// A list has at most this many blocks, 4 MiB in all.
const MOST_BLOCKS: u32 = 64;

// The buffer for the list's largest picture on a canvas that is a column and a row larger.
const ROOM: usize = 2_097_160;

// What has been replayed so far.
#[derive(Clone, Copy, Default)]
struct Tally {
    payload: u64,
    dcs: u64,
    one_shot: u64,
    plain: u64,
    differing: u64,
    faults: u64,
}

fn count(number: &mut u64) {
    *number = number.wrapping_add(1);
}

impl Tally {
    fn add(&mut self, verdict: Option<Verdict>) {
        let Some(Verdict { kind, is_same }) = verdict else {
            return self.add_fault();
        };
        match kind {
            Kind::Payload => count(&mut self.payload),
            Kind::Dcs => count(&mut self.dcs),
            Kind::OneShot => count(&mut self.one_shot),
            Kind::Hls | Kind::Percent | Kind::Registers | Kind::Ratio => count(&mut self.plain),
        }
        if !is_same {
            count(&mut self.differing);
        }
    }

    fn add_fault(&mut self) {
        count(&mut self.faults);
    }

    fn cases(self) -> u64 {
        self.payload
            .wrapping_add(self.dcs)
            .wrapping_add(self.one_shot)
            .wrapping_add(self.plain)
    }
}

// The tally and the owner's palette, carried from record to record.
#[derive(Clone, Copy)]
struct State {
    tally: Tally,
    owner: Palette,
}

fn is_marked(block: &[u8]) -> bool {
    answers::number_at(block, 0) == 0x414C_5853
}

// Its magic number, its own checksum and its number among the blocks.
fn is_sound(block: &[u8], number: u32) -> bool {
    is_marked(block)
        && answers::number_at(block, 4) == answers::checksum(fields::rest(block, 8))
        && answers::number_at(block, 8) == number
}

// The record at the front of some bytes, and what follows it; none where it has no bytes or does not fit there.
fn split_record(bytes: &[u8]) -> Option<(&[u8], &[u8])> {
    let length = answers::number_at(bytes, 0) as usize;
    if length == 0 {
        return None;
    }
    bytes.split_at_checked(length)
}

fn replay_block(block: &[u8], buffer: &mut [u8], state: &mut State) {
    let mut unread = block.get(FIRST..).unwrap_or(&[]);
    for _ in 0..answers::number_at(block, 16) {
        let Some((record, after)) = split_record(unread) else {
            state.tally.add_fault();
            return;
        };
        let verdict = record::compare(record, buffer, &mut state.owner);
        state.tally.add(verdict);
        unread = after;
    }
}

// Replays block by block, up to the last one or one that cannot be read or is not sound.
fn replay_list(list: &mut impl Read, buffer: &mut [u8]) -> Tally {
    let mut state = State {
        tally: Tally::default(),
        owner: Palette::standard(),
    };
    let mut block = [0; BLOCK];
    for number in 0..MOST_BLOCKS {
        if list.read_exact(&mut block).is_err() || !is_sound(&block, number) {
            state.tally.add_fault();
            break;
        }
        replay_block(&block, buffer, &mut state);
        if answers::number_at(&block, 12) <= number + 1 {
            break;
        }
    }
    state.tally
}

fn print_count(rt: &impl Print, words: &str, count: u64) -> io::Result<()> {
    println!(rt; "{words}{count}")
}

fn print_tally(rt: &impl Print, tally: Tally) -> io::Result<()> {
    print_count(rt, "payload sessions, replayed: ", tally.payload)?;
    print_count(rt, "DCS sessions, replayed: ", tally.dcs)?;
    print_count(rt, "one-shot readings, replayed: ", tally.one_shot)?;
    print_count(rt, "colours and ratios, compared: ", tally.plain)?;
    print_count(rt, "faults of the list: ", tally.faults)?;
    let cases = tally.cases();
    print!(rt; "cases {cases}")?;
    print_count(rt, ", differences ", tally.differing)
}

// Kept: written as `[0; ROOM]` in `main`, the check runs out of stack.
fn room() -> [u8; ROOM] {
    [0; ROOM]
}

fn main(rt: HostRuntime) -> io::Result<()> {
    let mut list = File::open(&rt, "answers")?;
    let mut buffer = room();
    print_tally(&rt, replay_list(&mut list, &mut buffer))
}
