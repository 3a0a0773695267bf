// How a session reads.
ghost use Rattle.std.specs.Prelude.{◌≡◌, length};
ghost use Rattle.colours.specs.Palette.{of_table};
ghost use Rattle.reference.specs.Step.{Fits};
ghost use Rattle.payload.specs.declared.Life.{Life};
ghost use Rattle.payload.specs.Core.{over, fed_over, Passed};
ghost use Rattle.payload.specs.Session.{answer_of, life_after, fed_live, fed_by};

use crate::kernel::Setup;
use crate::refusals::feed_refusal;
use crate::{Answer, Life};
use frame::{Frame, Outcome, Refusal};
use reading::process;

// A call's answer, and the life and the frame after it.
#[derive(Clone, Copy)]
pub struct Fed {
    pub answer: Result<Answer<u8>, Refusal>,
    pub life: Life,
    pub frame: Frame,
}

// What reading came to, as an answer.
fn answer_of(outcome: Outcome, consumed: usize, ink: usize) -> Result<Answer<u8>, Refusal>
    ensures { result ≡ answer_of outcome consumed ink }
{
    match outcome {
        Outcome::Read => Ok(Answer::More { consumed, ink }),
        Outcome::Stopped => Ok(Answer::Stopped { consumed, ink }),
        Outcome::Ended(byte) => Ok(Answer::Ended {
            consumed,
            ink,
            end: byte,
        }),
        Outcome::Refused(refusal) => Err(refusal),
    }
}

// A refusal fails the session.
fn life_after(outcome: Outcome) -> Life
    ensures { result ≡ life_after outcome }
{
    match outcome {
        Outcome::Read => Life::Live,
        Outcome::Stopped => Life::Live,
        Outcome::Ended(byte) => Life::Ended(byte),
        Outcome::Refused(_) => Life::Failed,
    }
}

// Reads bytes with a session that has passed 9, 12 and 13 and has not ended.
fn feed_live(
    setup: Setup,
    frame: Frame,
    colors: &mut [u32; 256],
    canvas: &mut [u8],
    bytes: &[u8],
    allowance: usize,
) -> Fed
    requires { Fits frame setup.ground (length canvas.old) }
    ensures { (life : Life) → (fed_over setup result colors.new, canvas.new)
        ≡ fed_live (over setup life frame (of_table colors.old)) canvas.old bytes.now allowance }
{
    let progress = process(frame, setup.ground, colors, canvas, bytes, allowance);
    let outcome = progress.outcome;
    Fed {
        answer: answer_of(outcome, progress.consumed, progress.ink),
        life: life_after(outcome),
        frame: progress.frame,
    }
}

// Reads bytes with a session that has passed 9, 12 and 13. One that has ended repeats its end.
// Inner: asks that 9, 12 and 13 do not refuse.
pub fn feed_passed(
    setup: Setup,
    life: Life,
    frame: Frame,
    colors: &mut [u32; 256],
    canvas: &mut [u8],
    bytes: &[u8],
    allowance: usize,
) -> Fed
    requires { Passed setup life frame (length canvas.old) allowance }
    ensures { (fed_over setup result colors.new, canvas.new)
        ≡ fed_by (over setup life frame (of_table colors.old)) canvas.old bytes.now allowance }
{
    if let Life::Ended(byte) = life {
        return Fed {
            answer: Ok(Answer::Ended {
                consumed: 0,
                ink: 0,
                end: byte,
            }),
            life,
            frame,
        };
    }
    feed_live(setup, frame, colors, canvas, bytes, allowance)
}

// Reads bytes, painting on the canvas, until all are read, the payload ends, or a sixel's ink exceeds the allowance.
pub fn feed(
    setup: Setup,
    life: Life,
    frame: Frame,
    colors: &mut [u32; 256],
    canvas: &mut [u8],
    bytes: &[u8],
    allowance: usize,
) -> Fed
    ensures { (fed_over setup result colors.new, canvas.new)
        ≡ fed_by (over setup life frame (of_table colors.old)) canvas.old bytes.now allowance }
{
    let verdict = feed_refusal(setup, life, frame, canvas.len(), allowance);
    if let Err(refusal) = verdict {
        return Fed {
            answer: Err(refusal),
            life,
            frame,
        };
    }
    feed_passed(setup, life, frame, colors, canvas, bytes, allowance)
}
