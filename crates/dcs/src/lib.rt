// A DCS session: introducer, header, payload and end of one sequence, over a payload session. The Rust's
// SixelDcsStreamDecoder, by value.
#![tactic(auto)]

pub mod kernel;
pub mod memory;

ghost use Rattle.std.specs.Prelude.{◌≡◌};
ghost use Rattle.dcs.specs.Session.{opened_by, fed_by, finished_by};

use crate::kernel::{core_of, palette_of, with_palette};
use colours::Palette;
use frame::Limits;
use header::Place;
use numbers::Parameters;
use payload::kernel::{frame_of, life_of, setup_of};
use payload::{Fed, Finished, Opened, hand_back};

// How a sequence came to its end, with the byte that cancelled or interrupted it.
#[derive(Clone, Copy)]
pub enum Ending {
    Complete,
    Cancelled(u8),
    Interrupted(u8),
}

// Before the payload, in it, after the 1B that ended it, at the end.
#[derive(Clone, Copy)]
pub enum Phase {
    Before(Place),
    Within,
    Escaped,
    Over(Ending),
}

// A refusal fails the payload session, and so this one.
#[derive(Clone, Copy)]
pub struct Session {
    payload: payload::Session,
    header: Parameters,
    phase: Phase,
}

// Opens a session for a canvas of `length` bytes and `stride` pixels a row, with a copy of the owner's palette. Nothing is
// written before `q`.
pub fn open(limits: Limits, stride: usize, palette: Palette, length: usize) -> Opened<Session>
    ensures { result ≡ opened_by limits stride palette length }
{
    let own = palette.lasting();
    let colors = own.table();
    let opened = kernel::opening::open(limits, stride, &colors, length);
    Opened {
        answer: opened.answer,
        session: with_palette(opened.session, own),
    }
}

// Reads bytes, painting on the canvas, until all are read, the sequence ends, or a sixel's ink exceeds the allowance.
pub fn feed(
    session: Session,
    canvas: &mut [u8],
    bytes: &[u8],
    allowance: usize,
) -> Fed<Session, Ending>
    ensures { (result, canvas.new) ≡ fed_by session canvas.old bytes.now allowance }
{
    let palette = palette_of(session);
    let mut colors = palette.table();
    let fed = kernel::feeding::feed(core_of(session), &mut colors, canvas, bytes, allowance);
    Fed {
        answer: fed.answer,
        session: with_palette(fed.session, Palette::of_table(colors)),
    }
}

// Finishes a sequence that has come to its end, as a payload session is finished.
pub fn finish(session: Session, owner: Palette, canvas: &mut [u8]) -> Finished
    ensures { (result, canvas.new) ≡ finished_by session owner canvas.old }
{
    let palette = palette_of(session);
    let mut colors = palette.table();
    let life = life_of(session.payload);
    let answer = kernel::finishing::finish(
        setup_of(session.payload),
        life,
        frame_of(session.payload),
        session.phase,
        &mut colors,
        canvas,
    );
    hand_back(answer, owner, Palette::of_table(colors))
}

// Drops a session: the owner's palette is as it was.
pub fn abort(session: Session, owner: Palette) -> Palette
    ensures { result ≡ owner }
{
    owner
}
