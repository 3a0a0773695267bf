// A DCS session that moves. Before the `q` of its header there is no picture, and nothing to carry over.
ghost use Rattle.std.specs.Prelude.{◌≡◌};
ghost use Rattle.colours.specs.declared.Palette.{Palette};
ghost use Rattle.dcs.specs.Core.{over};
ghost use Rattle.moving.specs.DcsSession.{shown_size, move_answer, moved_by};

use crate::{Moved, answer_for, moved_setup};
use dcs::kernel::{Core, core_of, palette_of, with_palette};
use dcs::{Phase, Session};
use frame::{Refusal, VisibleArea};

// The size of the picture so far.
fn picture_size(phase: Phase, area: VisibleArea) -> VisibleArea
    ensures { result ≡ shown_size phase area }
{
    match phase {
        Phase::Before(_) => VisibleArea {
            width: 0,
            height: 0,
        },
        Phase::Within => area,
        Phase::Escaped => area,
        Phase::Over(_) => area,
    }
}

// What a move of the session with these parts answers.
pub fn move_answer(core: Core, stride: usize, length: usize) -> Result<VisibleArea, Refusal>
    ensures { (p : Palette) → result ≡ move_answer (over core p) stride length }
{
    let frame = core.frame;
    let size = picture_size(core.phase, frame.area);
    answer_for(core.setup, core.life, frame, size, stride, length)
}

// Moves a session to a canvas of `stride` pixels a row and `length` bytes.
pub fn move_to(session: Session, stride: usize, length: usize) -> Moved<Session>
    ensures { result ≡ moved_by session stride length }
{
    let core = core_of(session);
    let answer = move_answer(core, stride, length);
    if let Err(_) = answer {
        return Moved { answer, session };
    }
    let moved = Core {
        setup: moved_setup(core.setup, stride, length),
        ..core
    };
    Moved {
        answer,
        session: with_palette(moved, palette_of(session)),
    }
}
