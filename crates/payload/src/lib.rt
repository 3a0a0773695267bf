// A payload session: the Rust's SixelStreamDecoder. It goes in by value and comes back by value, its palette inside, over a lent
// canvas. A palette has an owner, who hands a copy to each session and gets one back at finish: the session's where the finish
// succeeds, else the owner's own.
#![tactic(auto)]

pub mod codes;
pub mod deferred;
pub mod kernel;
pub mod memory;
pub mod places;
pub mod refusals;

ghost use Rattle.std.specs.Prelude.{◌≡◌};
ghost use Rattle.meaning.specs.Drawing.{house_limits, crate_limits};
ghost use Rattle.payload.specs.Deferred.{no_settings};
ghost use Rattle.payload.specs.Meant.{limits_coded};
ghost use Rattle.payload.specs.Core.{handed_back};
ghost use Rattle.payload.specs.Session.{opened_by, fed_by, finished_by};

use crate::kernel::{frame_of, life_of, palette_of, session_of, setup_of};
use colours::Palette;
use frame::{Frame, Ground, Limits, Refusal};

// Two parameters of a DCS header, each a 16-bit number or none: P1, to which the ratio is left where no raster says it, and P2, which
// says whether the background is transparent.
#[derive(Clone, Copy)]
pub struct Settings {
    pub p1: Option<u16>,
    pub p2: Option<u16>,
}

#[derive(Clone, Copy)]
pub enum Life {
    Live,
    Ended(u8),
    Failed,
}

#[derive(Clone, Copy)]
pub struct Session {
    ground: Ground,
    length: usize,
    settings: Settings,
    life: Life,
    frame: Frame,
    palette: Palette,
}

// An opening's answer and the session, which is a failed one where the opening is refused.
#[derive(Clone, Copy)]
pub struct Opened<S> {
    pub answer: Result<(), Refusal>,
    pub session: S,
}

// Bytes consumed and ink of one call, and what ended the session where it is at its end.
#[derive(Clone, Copy)]
pub enum Answer<E> {
    More { consumed: usize, ink: usize },
    Stopped { consumed: usize, ink: usize },
    Ended { consumed: usize, ink: usize, end: E },
}

// A feed's answer and the session after it.
#[derive(Clone, Copy)]
pub struct Fed<S, E> {
    pub answer: Result<Answer<E>, Refusal>,
    pub session: S,
}

// `Raster(n)` is n : 1.
#[derive(Clone, Copy)]
pub enum Ratio {
    Raster(u8),
    LeftToP1(Option<u16>),
}

#[derive(Clone, Copy)]
pub struct Report {
    pub width: usize,
    pub height: usize,
    pub right: usize,
    pub bottom: usize,
    pub ratio: Ratio,
    pub transparent: bool,
    // How many registers the frame defined.
    pub defined: usize,
    // The width and the height that raster commands have kept, each 0 where none has been.
    pub declared_width: usize,
    pub declared_height: usize,
    // How many definitions of the frame had a held value (rule 9.10).
    pub held: u64,
}

// A finish's answer, and the owner's palette after it.
#[derive(Clone, Copy)]
pub struct Finished {
    pub answer: Result<Report, Refusal>,
    pub palette: Palette,
}

// No P1 and no P2.
pub fn no_settings() -> Settings
    ensures { result ≡ no_settings }
{
    Settings { p1: None, p2: None }
}

// The house's limits.
pub fn house_limits() -> Limits
    ensures { result ≡ limits_coded house_limits }
{
    Limits {
        width: 1_024,
        height: 768,
        repeats: 1_024,
        pixels: 786_432,
    }
}

// The limits that the Rust has built in.
pub fn crate_limits() -> Limits
    ensures { result ≡ limits_coded crate_limits }
{
    Limits {
        width: 1_000_000,
        height: 1_000_000,
        repeats: 65_535,
        pixels: 67_108_864,
    }
}

// Opens a session on a canvas of `stride` pixels a row, with a copy of the owner's palette. Pixel (0, 0) gets the background.
pub fn open(
    limits: Limits,
    stride: usize,
    settings: Settings,
    palette: Palette,
    canvas: &mut [u8],
) -> Opened<Session>
    ensures { (result, canvas.new) ≡ opened_by limits stride settings palette canvas.old }
{
    let own = palette.lasting();
    let colors = own.table();
    let opened = kernel::opening::open(limits, stride, settings, &colors, canvas);
    Opened {
        answer: opened.answer,
        session: session_of(opened.setup, opened.life, opened.frame, own),
    }
}

// Reads bytes, painting on the canvas, until all are read, the payload ends, or a sixel's ink exceeds the allowance.
pub fn feed(session: Session, canvas: &mut [u8], bytes: &[u8], allowance: usize) -> Fed<Session, u8>
    ensures { (result, canvas.new) ≡ fed_by session canvas.old bytes.now allowance }
{
    let palette = palette_of(session);
    let mut colors = palette.table();
    let setup = setup_of(session);
    let life = life_of(session);
    let fed = kernel::feeding::feed(
        setup,
        life,
        frame_of(session),
        &mut colors,
        canvas,
        bytes,
        allowance,
    );
    Fed {
        answer: fed.answer,
        session: session_of(setup, fed.life, fed.frame, Palette::of_table(colors)),
    }
}

// A finish's answer, and the palette that is the owner's after it: the session's where there is a picture.
pub fn hand_back(answer: Result<Report, Refusal>, owner: Palette, after: Palette) -> Finished
    ensures { result ≡ handed_back answer owner after }
{
    match answer {
        Ok(_) => Finished {
            answer,
            palette: after,
        },
        Err(_) => Finished {
            answer,
            palette: owner,
        },
    }
}

// Carries the pending command out and reports. The session is gone; its palette becomes the owner's where this succeeds.
pub fn finish(session: Session, owner: Palette, canvas: &mut [u8]) -> Finished
    ensures { (result, canvas.new) ≡ finished_by session owner canvas.old }
{
    let palette = palette_of(session);
    let mut colors = palette.table();
    let life = life_of(session);
    let answer = kernel::finishing::finish(
        setup_of(session),
        life,
        frame_of(session),
        &mut colors,
        canvas,
    );
    hand_back(answer, owner, Palette::of_table(colors))
}

// Drops a session: the owner's palette is as it was.
pub fn abort(session: Session, owner: Palette) -> Palette
    ensures { result ≡ owner }
{
    owner
}
