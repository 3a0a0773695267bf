// A session in the caller's memory that moves to another canvas, and the picture that goes with it.
ghost use Rattle.std.specs.Prelude.{◌≡◌};
ghost use Rattle.canvas.specs.Picture.{area_of};
ghost use Rattle.moving.specs.Carry.{carried_to};
ghost use Rattle.owlgantry.specs.Moving.{moving_report, placed_as, payload_moved, dcs_moved};

use crate::answers::number_or_zero;
use crate::copy_number;
use canvas::rows;
use dcs::memory::core_from;
use frame::{Refusal, VisibleArea};
use moving::carrying::carry_picture;
use payload::codes::life_from;
use payload::memory::{frame_from, setup_from};
use payload::places;

// The picture's width and height; zeros on a refusal.
#[tactic(auto, unfolding(crate::specs::Moving::moving_report))]
fn moving_report(answer: Result<VisibleArea, Refusal>) -> [u64; 2]
    ensures { result ≡ moving_report answer }
{
    match answer {
        Ok(area) => [area.width as u64, area.height as u64],
        Err(_) => [0, 0],
    }
}

// Puts a session on its other canvas, unless that was refused: of its numbers three are the canvas's.
fn place(
    answer: Result<VisibleArea, Refusal>,
    session: &mut [u64; 48],
    stride: usize,
    length: usize,
)
    ensures { session.new ≡ placed_as answer session.old stride length }
{
    if let Err(_) = answer {
        return;
    }
    session[places::STRIDE] = stride as u64;
    session[places::ROWS] = rows(length, stride) as u64;
    session[places::LENGTH] = length as u64;
}

// Moves a payload session to a canvas of `stride` pixels a row and `length` bytes. Answers 0, or 9, 11 or 12, and then the session is as it
// was. Reports two numbers: width and height of the picture that has to be carried over; 0 on a refusal.
pub fn owlgantry_raw_payload_move(
    session: &mut [u64; 48],
    stride: usize,
    length: usize,
    report: &mut [u64; 2],
) -> u64
    ensures { (result, session.new, report.new) ≡ payload_moved session.old stride length }
{
    let life = life_from(session[places::LIFE]);
    let answer = moving::payload_session::move_answer(
        setup_from(session),
        life,
        frame_from(session),
        stride,
        length,
    );
    place(answer, session, stride, length);
    *report = moving_report(answer);
    number_or_zero(answer)
}

// Moves a DCS session, as a payload session is moved. Before the `q` of its header there is no picture, and both numbers are 0.
pub fn owlgantry_raw_dcs_move(
    session: &mut [u64; 48],
    stride: usize,
    length: usize,
    report: &mut [u64; 2],
) -> u64
    ensures { (result, session.new, report.new) ≡ dcs_moved session.old stride length }
{
    let core = core_from(session);
    let answer = moving::dcs_session::move_answer(core, stride, length);
    place(answer, session, stride, length);
    *report = moving_report(answer);
    number_or_zero(answer)
}

// Carries a picture's rows from one canvas to another, each at its canvas's stride; all other bytes of the other canvas stay. Answers 0, or 12
// where either canvas has no such picture.
pub fn owlgantry_raw_carry(
    canvas: &[u8],
    stride: usize,
    width: usize,
    height: usize,
    other: &mut [u8],
    other_stride: usize,
) -> u64
    ensures { (result, other.new)
        ≡ carried_to stride other_stride (area_of width height) canvas.now other.old }
{
    copy_number(carry_picture(canvas, stride, width, height, other, other_stride))
}
