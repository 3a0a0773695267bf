// Compares the colours with what the Rust gave, stored in the file `colours`: for each hue a checksum of its 101 x 101 colours,
// then percents, signed HLS samples and the standard registers. It writes how many colours it compared, and how many answers differ.
#![tactic(auto)]

mod compare;
mod hues;

ghost use Rattle.std.specs.Prelude.{◌≡◌, ◌≤◌, length};

use compare::Tally;
use std::fs::File;
use std::io;
use std::io::Read;

// The buffer for the file, which has 185,450 bytes.
fn room() -> [u8; 262144]
    ensures { 262144 ≡ length result }
{
    [0; 262144]
}

fn report(rt: &impl Print, tally: Tally) -> io::Result<()> {
    let compared = tally.compared;
    let differing = tally.differing;
    println!(rt; "colours compared {compared}, differences {differing}")
}

// Reads until the buffer is full or the input ends, and answers how many bytes came. A failed read counts as the input's end.
fn read_full(input: &mut impl Read, buffer: &mut [u8]) -> usize
    ensures { result ≤ length buffer.new }
{
    let mut done = 0;
    while done < buffer.len() {
        let n = input.read(&mut buffer[done..]).unwrap_or(0);
        if n == 0 {
            return done;
        }
        done += n;
    }
    done
}

fn main(rt: HostRuntime) -> io::Result<()> {
    let mut file = File::open(&rt, "colours")?;
    let mut stored = room();
    let got = read_full(&mut file, &mut stored);
    report(&rt, compare::all(&stored[..got]))
}
