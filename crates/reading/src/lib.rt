// The loop over a payload's bytes: the fast machine as far as it goes, then one byte by the reference machine, and again.
#![tactic(auto)]

pub mod renew;

ghost use Rattle.std.specs.Prelude.{◌≡◌, ◌||◌, ◌+◌, ◌≤◌, ◌<◌, length};
ghost use Rattle.colours.specs.Palette.{of_table};
ghost use Rattle.frame.specs.declared.Kind.TheVariants as kinds;
ghost use Rattle.reference.specs.Step.{Fits, Reached, step_of};
ghost use Rattle.reference.specs.Feed.{feed_from};
ghost use Rattle.fast.specs.Advance.{after_advance, Advances};
ghost use Rattle.reading.specs.Loop.{joined_to};

use fast::{Advance, nothing, read_ahead};
use frame::commands::without_command;
use frame::{Frame, Ground, Kind, Outcome, Progress};
use reference::step;
use renew::{renewed, renewed_pen};

// Two advances, one after the other, as one.
fn joined(before: Advance, after: Advance) -> Advance
    requires { before.ink + after.ink < 18446744073709551616 }
    ensures { result ≡ joined_to before after }
{
    Advance {
        pen: renewed_pen(after.pen),
        area: after.area,
        extent: after.extent,
        held: after.held,
        settled: before.settled || after.settled,
        end: after.end,
        ink: before.ink + after.ink,
    }
}

// The frame after an advance: no command is pending where one was read.
fn resume(frame: Frame, advance: Advance) -> Frame
    ensures { result ≡ after_advance frame advance }
{
    let mut next = renewed(frame);
    next.pen = advance.pen;
    next.area = advance.area;
    next.extent = advance.extent;
    next.held = advance.held;
    if advance.settled {
        return without_command(next);
    }
    next
}

// The fast machine, as far as it goes. The pen and the sizes alone go round: a frame is put together where it ends, and the values of a
// pending command are nowhere in this loop.
fn read_idle(
    frame: Frame,
    ground: Ground,
    colors: &mut [u32; 256],
    canvas: &mut [u8],
    bytes: &[u8],
    from: usize,
    left: usize,
) -> Advance
    requires { Fits frame ground (length canvas.old) × (frame.command.kind ≡ kinds.Data) × (from ≤ length bytes.now) }
    ensures { Advances ground bytes.now from left frame (of_table colors.old) canvas.old
        result (of_table colors.new) canvas.new }
{
    let mut done = nothing(frame, from);
    // Kept: (d) the place moves as far as the machine read, so that no range counts it.
    while done.end < bytes.len() {
        let here = done.end;
        let now = resume(frame, done);
        let next = read_ahead(now, ground, colors, canvas, bytes, here, left - done.ink);
        done = joined(done, next);
        if done.end == here {
            return done;
        }
    }
    done
}

// One byte by the reference machine, and the frame made anew after it.
fn read_byte(
    frame: Frame,
    ground: Ground,
    colors: &mut [u32; 256],
    canvas: &mut [u8],
    byte: u8,
    left: usize,
) -> Progress
    requires { Fits frame ground (length canvas.old) }
    ensures { record { progress = result; palette = of_table colors.new; canvas = canvas.new }
        ≡ step_of frame ground byte left (of_table colors.old) canvas.old }
{
    let read = step(frame, ground, colors, canvas, byte, left);
    Progress {
        frame: renewed(read.frame),
        ..read
    }
}

fn reached(frame: Frame, consumed: usize, ink: usize, outcome: Outcome) -> Progress
    ensures { result ≡ record { frame = frame; consumed = consumed; ink = ink; outcome = outcome } }
{
    Progress {
        frame,
        consumed,
        ink,
        outcome,
    }
}

// Reads bytes until all are read, or one stays unread.
// Inner: asks that the visible area has room on the canvas.
// Kept: docs/EXCEPTIONS.md names the function with what it asks; a type that holds `Fits` would ask it of callers in another place.
pub fn process(
    frame: Frame,
    ground: Ground,
    colors: &mut [u32; 256],
    canvas: &mut [u8],
    bytes: &[u8],
    allowance: usize,
) -> Progress
    requires { Fits frame ground (length canvas.old) }
    ensures { record { progress = result; palette = of_table colors.new; canvas = canvas.new }
        ≡ feed_from ground allowance bytes.now 0 0 frame (of_table colors.old) canvas.old }
{
    // Made anew: a caller has just written it number by number, and eight bytes read at once where one and its padding were written are
    // waited for. A call with one byte feels it.
    let mut now = renewed(frame);
    let mut consumed = 0;
    let mut ink = 0;
    // Kept: (d) the place moves as far as a machine read, so that no range counts it.
    while consumed < bytes.len() {
        // The fast machine takes no byte of a pending command. Asked all the same, it would make each digit a third slower.
        if let Kind::Data = now.command.kind {
            let left = allowance - ink;
            let fast = read_idle(now, ground, colors, canvas, bytes, consumed, left);
            now = resume(now, fast);
            consumed = fast.end;
            ink += fast.ink;
            if consumed == bytes.len() {
                return reached(now, consumed, ink, Outcome::Read);
            }
        }
        let byte = bytes[consumed];
        let read = read_byte(now, ground, colors, canvas, byte, allowance - ink);
        now = read.frame;
        match read.outcome {
            Outcome::Read => {
                consumed += read.consumed;
                ink += read.ink;
            }
            outcome => return reached(now, consumed, ink, outcome),
        }
    }
    reached(now, consumed, ink, Outcome::Read)
}
