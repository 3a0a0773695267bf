// A session that moves to another canvas, and the picture that goes with it. Stride, rows and length of a session are those of its canvas, and
// nothing else is: so a move changes these three, and whoever moves carries the picture's rows over.
#![tactic(auto)]

pub mod carrying;
pub mod dcs_session;
pub mod payload_session;

ghost use Rattle.std.specs.Prelude.{◌≡◌};
ghost use Rattle.colours.specs.declared.Palette.{Palette};
ghost use Rattle.payload.specs.Core.{over};
ghost use Rattle.moving.specs.Session.{area_room, move_judged, setup_moved, answer_as};

use frame::{Frame, Ground, Refusal, VisibleArea};
use payload::Life;
use payload::kernel::Setup;
use payload::refusals::{has_failed, may_open};

// A move's answer, and the session. The answer is the size of the picture that has to be carried over, 0 by 0 where there is none yet; or a refusal,
// and then the session is the one that there was.
#[derive(Clone, Copy)]
pub struct Moved<S> {
    pub answer: Result<VisibleArea, Refusal>,
    pub session: S,
}

#[tactic(auto, unfolding(crate::specs::Session::area_room))]
fn has_room(area: VisibleArea, stride: usize, length: usize) -> bool
    ensures { result ≡ area_room area stride length }
{
    area.width <= stride && area.height <= canvas::rows(length, stride)
}

// 9, 11, 12.
fn move_refusal(
    setup: Setup,
    life: Life,
    frame: Frame,
    stride: usize,
    length: usize,
) -> Result<(), Refusal>
    ensures { (p : Palette) → result ≡ move_judged (over setup life frame p) stride length }
{
    if has_failed(life) {
        return Err(Refusal::Failed);
    }
    if !may_open(setup.ground.limits, stride, length) {
        return Err(Refusal::Opening);
    }
    if !has_room(frame.area, stride, length) {
        return Err(Refusal::Canvas);
    }
    Ok(())
}

// What a move of a session with a picture of this size answers.
#[tactic(auto, unfolding(crate::specs::Session::answer_as))]
pub(crate) fn answer_for(
    setup: Setup,
    life: Life,
    frame: Frame,
    size: VisibleArea,
    stride: usize,
    length: usize,
) -> Result<VisibleArea, Refusal>
    ensures { (p : Palette) → result ≡ answer_as (move_judged (over setup life frame p) stride length) size }
{
    move_refusal(setup, life, frame, stride, length)?;
    Ok(size)
}

// The setup for a canvas of this stride and length.
pub(crate) fn moved_setup(setup: Setup, stride: usize, length: usize) -> Setup
    ensures { result ≡ setup_moved setup stride length }
{
    Setup {
        ground: Ground {
            stride,
            rows: canvas::rows(length, stride),
            ..setup.ground
        },
        length,
        ..setup
    }
}
