// A payload session that moves.
ghost use Rattle.std.specs.Prelude.{◌≡◌};
ghost use Rattle.colours.specs.declared.Palette.{Palette};
ghost use Rattle.payload.specs.Core.{over};
ghost use Rattle.moving.specs.Session.{move_answer, moved_by};

use crate::{Moved, answer_for, moved_setup};
use frame::{Frame, Refusal, VisibleArea};
use payload::kernel::{Setup, frame_of, life_of, palette_of, session_of, setup_of};
use payload::{Life, Session};

// What a move of the session with these parts answers.
pub fn move_answer(
    setup: Setup,
    life: Life,
    frame: Frame,
    stride: usize,
    length: usize,
) -> Result<VisibleArea, Refusal>
    ensures { (p : Palette) → result ≡ move_answer (over setup life frame p) stride length }
{
    answer_for(setup, life, frame, frame.area, stride, length)
}

// Moves a session to a canvas of `stride` pixels a row and `length` bytes.
pub fn move_to(session: Session, stride: usize, length: usize) -> Moved<Session>
    ensures { result ≡ moved_by session stride length }
{
    let setup = setup_of(session);
    let life = life_of(session);
    let frame = frame_of(session);
    let answer = move_answer(setup, life, frame, stride, length);
    if let Err(_) = answer {
        return Moved { answer, session };
    }
    Moved {
        answer,
        session: session_of(
            moved_setup(setup, stride, length),
            life,
            frame,
            palette_of(session),
        ),
    }
}
