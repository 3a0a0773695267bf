// Reading all at once: the Rust's AnsiPayload::parse and decode. One function returns the part of the input that is payload,
// and another reads that part and answers.
#![tactic(auto)]

pub mod search;

ghost use Rattle.std.specs.Prelude.{◌≡◌, ◌*◌, ◌≤◌, true, length, Err};
ghost use Rattle.colours.specs.Palette.{of_table};
ghost use Rattle.meaning.specs.Calls.{part_handed_back};
ghost use Rattle.payload.specs.Core.{over, fed_over, finished_over, Passed};
ghost use Rattle.payload.specs.Meant.{parameters_meant, limits_meant, setting_meant};
ghost use Rattle.payload.specs.Refusals.{openable};
ghost use Rattle.payload.specs.Session.{fed_by, finished_by};
ghost use Rattle.oneshot.specs.OneShot.{piece_end, read_whole, read_part, read_meant};

use colours::Palette;
use colours::marks::begin;
use frame::{Frame, Limits, Refusal};
use payload::kernel::Setup;
use payload::kernel::feeding::{Fed, feed_passed};
use payload::kernel::finishing::finish;
use payload::kernel::opening::open;
use payload::refusals::may_open;
use payload::{Answer, Finished, Life, Report, Settings};
use reading::renew::renewed;
use search::find;

// The largest allowance. A call stops only where its ink would pass what a number can hold.
const ALLOWANCE: usize = 18_446_744_073_709_551_615;

// The part of the bytes that `read` takes for the payload, on a canvas of so many bytes: an empty one where it refuses
// before that.
pub fn payload_part(limits: Limits, stride: usize, length: usize, bytes: &[u8]) -> &[u8]
    ensures { result.now ≡ part_handed_back (limits_meant limits) stride length bytes.now }
{
    if !may_open(limits, stride, length) {
        return &bytes[..0];
    }
    match find(bytes) {
        Ok(found) => &bytes[found.from..],
        Err(_) => &bytes[..0],
    }
}

// Where a piece that begins at a place ends: `chunk` bytes on, or at the end of all where fewer are left or `chunk` is 0.
fn piece_end(at: usize, length: usize, chunk: usize) -> usize
    requires { at ≤ length }
    ensures { result ≡ piece_end at length chunk }
{
    if chunk == 0 || length - at <= chunk {
        length
    } else {
        at + chunk
    }
}

// Finishes a session for the owner of some registers: those lent are the picture's where there is one, and else the owner's.
fn finish_for(
    owner: &[u32; 256],
    setup: Setup,
    life: Life,
    frame: Frame,
    colors: &mut [u32; 256],
    canvas: &mut [u8],
) -> Result<Report, Refusal>
    ensures { (finished_over result colors.new, canvas.new)
        ≡ finished_by (over setup life frame (of_table colors.old)) (of_table owner.now) canvas.old }
{
    let answer = finish(setup, life, frame, colors, canvas);
    if answer.is_err() {
        *colors = *owner;
    }
    answer
}

// Feeds a session that has passed 9, 12 and 13, and makes its frame anew: it has just been written number by number, and a processor that
// copies it whole waits for that. A small picture feels it.
fn feed_anew(
    setup: Setup,
    life: Life,
    frame: Frame,
    colors: &mut [u32; 256],
    canvas: &mut [u8],
    bytes: &[u8],
    allowance: usize,
) -> Fed
    requires { Passed setup life frame (length canvas.old) allowance }
    ensures { (fed_over setup result colors.new, canvas.new)
        ≡ fed_by (over setup life frame (of_table colors.old)) canvas.old bytes.now allowance }
{
    let fed = feed_passed(setup, life, frame, colors, canvas, bytes, allowance);
    Fed {
        answer: fed.answer,
        life: fed.life,
        frame: renewed(fed.frame),
    }
}

// Inner: asks that a session can be opened, and for an allowance of at least 6W. Feeds it the part in pieces of `chunk` bytes,
// those that a stop left unread first, and finishes it. Neither `chunk` nor `allowance` shows in the outcome. The registers are the
// picture's where there is one, and else stay as they are.
pub fn read_in_pieces(
    limits: Limits,
    stride: usize,
    settings: Settings,
    colors: &mut [u32; 256],
    canvas: &mut [u8],
    part: &[u8],
    chunk: usize,
    allowance: usize,
) -> Result<Report, Refusal>
    requires canvas_value { openable limits stride (length canvas.old) ≡ true }
    requires width_bound { 6 * limits.width ≤ allowance }
    ensures { read_meant (finished_over result colors.new) canvas.new
        ≡ read_part (setting_meant limits stride (length canvas.old)) (parameters_meant settings) (of_table colors.old)
        canvas.old part.now }
{
    let owner = *colors;
    begin(colors);
    let opened = open(limits, stride, settings, colors, canvas);
    let setup = opened.setup;
    let mut life = opened.life;
    let mut frame = opened.frame;
    let mut at = 0;
    // Kept: the place moves as far as a call has read, so that there is nothing to go over.
    loop {
        let end = piece_end(at, part.len(), chunk);
        let bytes = &part[at..end];
        let fed = feed_anew(setup, life, frame, colors, canvas, bytes, allowance);
        life = fed.life;
        frame = fed.frame;
        let answer = fed.answer;
        match answer {
            Ok(Answer::Stopped { consumed, ink: _ }) => at += consumed,
            Ok(Answer::More { consumed, ink: _ }) => {
                at += consumed;
                if at == part.len() {
                    return finish_for(&owner, setup, life, frame, colors, canvas);
                }
            }
            Ok(
                Answer::Ended {
                    consumed: _,
                    ink: _,
                    end: _,
                },
            ) => return finish_for(&owner, setup, life, frame, colors, canvas),
            Err(refusal) => {
                *colors = owner;
                return Err(refusal);
            }
        }
    }
}

// What reading all at once came to, and how long the part is that it took for the payload: the last bytes of all, none where it refuses
// before that.
#[derive(Clone, Copy)]
pub struct Reading {
    pub answer: Result<Report, Refusal>,
    pub part: usize,
}

fn turned_away(refusal: Refusal) -> Reading
    ensures { result ≡ record { answer = Err refusal; part = 0 } }
{
    Reading {
        answer: Err(refusal),
        part: 0,
    }
}

// Reads the payload of some bytes onto a canvas of `stride` pixels a row, with the owner's registers, which become the picture's where
// there is one.
pub fn read_onto(
    limits: Limits,
    stride: usize,
    colors: &mut [u32; 256],
    canvas: &mut [u8],
    bytes: &[u8],
) -> Reading
    ensures { (read_meant (finished_over result.answer colors.new) canvas.new
        ≡ read_whole (limits_meant limits) stride (of_table colors.old) canvas.old bytes.now)
        × (result.part ≡ length (part_handed_back (limits_meant limits) stride (length canvas.old) bytes.now)) }
{
    if may_open(limits, stride, canvas.len()) {
        match find(bytes) {
            Ok(found) => {
                let part = bytes.len() - found.from;
                let answer = read_in_pieces(
                    limits,
                    stride,
                    found.settings,
                    colors,
                    canvas,
                    &bytes[found.from..],
                    0,
                    ALLOWANCE,
                );
                return Reading { answer, part };
            }
            Err(refusal) => return turned_away(refusal),
        }
    }
    turned_away(Refusal::Opening)
}

// The same, with the owner's palette, which is handed back: the picture's where there is one.
pub fn read(
    limits: Limits,
    stride: usize,
    palette: Palette,
    canvas: &mut [u8],
    bytes: &[u8],
) -> Finished
    ensures { read_meant result canvas.new
        ≡ read_whole (limits_meant limits) stride palette canvas.old bytes.now }
{
    let mut colors = palette.table();
    let read = read_onto(limits, stride, &mut colors, canvas, bytes);
    Finished {
        answer: read.answer,
        palette: Palette::of_table(colors),
    }
}
