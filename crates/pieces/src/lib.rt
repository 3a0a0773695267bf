// The streaming reader as a caller builds on it: a DCS stream comes in pieces, each is fed with the smallest allowance until it is
// read, and the picture is copied at the end.
#![tactic(auto)]

ghost use Rattle.std.specs.Prelude.{◌≡◌};
ghost use Rattle.canvas.specs.Picture.{area_of};
ghost use Rattle.canvas.specs.Copy.{number_of, copied};
ghost use Rattle.pieces.specs.Pieces.{began_as, opened_by, counted_as, after_call, told_by, called_by, taken_in, taken_by, finished_by};

use canvas::{Uncopied, copy_picture};
use colours::Palette;
use dcs::{Ending, Session};
use frame::{Limits, Refusal};
use payload::{Answer, Finished, Report};

// What a reader has come to: a sequence that goes on, its end, or a refusal.
// Kept: a state of three, which a reader has for good; no call of a reader fails by it, and none could hand it on.
#[derive(Clone, Copy)]
pub enum Standing {
    Reading,
    Ended(Ending),
    Refused(Refusal),
}

// Bytes consumed, ink and calls in all, each saturating at 2^64 - 1.
#[derive(Clone, Copy)]
pub struct Counts {
    pub consumed: usize,
    pub ink: usize,
    pub calls: usize,
}

#[derive(Clone, Copy)]
pub struct Reader {
    session: Session,
    standing: Standing,
    allowance: usize,
    counts: Counts,
}

// What a call's answer tells: what it came to, its bytes and ink, and the bytes that a stop has consumed, 0 for any other.
#[derive(Clone, Copy)]
struct Told {
    standing: Standing,
    consumed: usize,
    ink: usize,
    // Kept: a stop that consumed nothing ends the loop as an answer without a stop does, and one number says both (`taken_for`).
    stopped: usize,
}

// A reader after one call, and the bytes that a stop has consumed; 0 after any other call, which is a piece's last.
#[derive(Clone, Copy)]
struct Called {
    reader: Reader,
    stopped: usize,
}

fn begin(session: Session, standing: Standing, allowance: usize) -> Reader
    ensures { result ≡ began_as session standing allowance }
{
    Reader {
        session,
        standing,
        allowance,
        counts: Counts {
            consumed: 0,
            ink: 0,
            calls: 0,
        },
    }
}

// Opens a reader for a canvas of `length` bytes and `stride` pixels a row, with a copy of the owner's palette. Its allowance
// is the smallest, six times the limit on widths.
pub fn open(limits: Limits, stride: usize, palette: Palette, length: usize) -> Reader
    ensures { result ≡ opened_by limits stride palette length }
{
    let opened = dcs::open(limits, stride, palette, length);
    let session = opened.session;
    match opened.answer {
        Ok(()) => begin(session, Standing::Reading, 6 * limits.width),
        Err(refusal) => begin(session, Standing::Refused(refusal), 0),
    }
}

pub fn standing_of(reader: Reader) -> Standing
    ensures { result ≡ reader.standing }
{
    reader.standing
}

pub fn counts_of(reader: Reader) -> Counts
    ensures { result ≡ reader.counts }
{
    reader.counts
}

// The counts with one call more.
#[tactic(auto, unfolding(crate::specs::Pieces::counted_as, crate::specs::Pieces::held_sum))]
fn count(counts: Counts, consumed: usize, ink: usize) -> Counts
    ensures { result ≡ counted_as counts consumed ink }
{
    Counts {
        consumed: counts.consumed.saturating_add(consumed),
        ink: counts.ink.saturating_add(ink),
        calls: counts.calls.saturating_add(1),
    }
}

fn after(
    reader: Reader,
    session: Session,
    standing: Standing,
    consumed: usize,
    ink: usize,
) -> Reader
    ensures { result ≡ after_call reader session standing consumed ink }
{
    Reader {
        session,
        standing,
        allowance: reader.allowance,
        counts: count(reader.counts, consumed, ink),
    }
}

fn tell(standing: Standing, consumed: usize, ink: usize, stopped: usize) -> Told
    ensures { result ≡ record { standing = standing; consumed = consumed; ink = ink; stopped = stopped } }
{
    Told {
        standing,
        consumed,
        ink,
        stopped,
    }
}

// A refusal tells no counts.
#[tactic(auto, unfolding(crate::specs::Pieces::told_by))]
fn told_by(answer: Result<Answer<Ending>, Refusal>) -> Told
    ensures { result ≡ told_by answer }
{
    match answer {
        Ok(Answer::More { consumed, ink }) => tell(Standing::Reading, consumed, ink, 0),
        Ok(Answer::Stopped { consumed, ink }) => tell(Standing::Reading, consumed, ink, consumed),
        Ok(
            Answer::Ended {
                consumed,
                ink,
                end: ending,
            },
        ) => tell(Standing::Ended(ending), consumed, ink, 0),
        Err(refusal) => tell(Standing::Refused(refusal), 0, 0, 0),
    }
}

// Makes one call.
fn call(reader: Reader, canvas: &mut [u8], bytes: &[u8]) -> Called
    ensures { (result, canvas.new) ≡ called_by reader canvas.old bytes.now }
{
    let fed = dcs::feed(reader.session, canvas, bytes, reader.allowance);
    let told = told_by(fed.answer);
    Called {
        reader: after(reader, fed.session, told.standing, told.consumed, told.ink),
        stopped: told.stopped,
    }
}

// Calls with a piece, and after each stop with what it left unread.
fn take_all(reader: Reader, canvas: &mut [u8], piece: &[u8]) -> Reader
    ensures { (result, canvas.new) ≡ taken_in reader canvas.old piece.now }
{
    let mut now = reader;
    let mut at = 0;
    // Kept: the place moves as far as a call has read, so that there is nothing to go over.
    loop {
        let call = call(now, canvas, &piece[at..]);
        now = call.reader;
        if call.stopped == 0 {
            return now;
        }
        at += call.stopped;
    }
}

// Takes the next piece of the stream. A reader that has come to an end or a refusal takes none.
pub fn take(reader: Reader, canvas: &mut [u8], piece: &[u8]) -> Reader
    ensures { (result, canvas.new) ≡ taken_by reader canvas.old piece.now }
{
    if let Standing::Reading = reader.standing {
        return take_all(reader, canvas, piece);
    }
    reader
}

// Finishes a sequence that has come to its end, as its session is finished; a refused reader repeats its refusal.
pub fn finish(reader: Reader, owner: Palette, canvas: &mut [u8]) -> Finished
    ensures { (result, canvas.new) ≡ finished_by reader owner canvas.old }
{
    if let Standing::Refused(refusal) = reader.standing {
        return Finished {
            answer: Err(refusal),
            palette: owner,
        };
    }
    dcs::finish(reader.session, owner, canvas)
}

// Copies the rows of the picture that a finish reported to the front of `out`, without gaps.
pub fn copy(report: Report, canvas: &[u8], stride: usize, out: &mut [u8]) -> Result<(), Uncopied>
    ensures { (number_of result, out.new)
        ≡ copied stride (area_of report.width report.height) canvas.now out.old }
{
    copy_picture(canvas, stride, report.width, report.height, out)
}
