// A frame while its payload is read: the Rust's FrameDecoder, palette and canvas apart. The session above owns both and lends
// them. Inner: of this crate a caller of the reader has use for its limits, its refusals and their numbers alone.
#![tactic(auto)]

pub mod commands;
pub mod rasters;
pub mod sizes;

ghost use Rattle.std.specs.Prelude.{◌≡◌};
ghost use Rattle.frame.specs.Numbers.{number_of};

use numbers::Parameters;

// The limits of a session: a picture's width and height, a repeat, and a picture's pixels.
#[derive(Clone, Copy)]
pub struct Limits {
    pub width: usize,
    pub height: usize,
    pub repeats: usize,
    pub pixels: usize,
}

// What stays the same while a frame is read.
#[derive(Clone, Copy)]
pub struct Ground {
    pub limits: Limits,
    pub stride: usize,
    pub rows: usize,
    pub background: [u8; 4],
}

// The refusals of rule 5.1, in the order of their numbers.
#[derive(Clone, Copy, PartialEq, Eq, Debug)]
pub enum Refusal {
    Introducer,
    HeaderEnded,
    HeaderByte,
    Repeat,
    Size,
    Pixels,
    Room,
    Unfinished,
    Failed,
    // Retired: nothing gives it. The case stays so that the others keep their numbers.
    FinalSize,
    Opening,
    Canvas,
    Allowance,
    Buffer,
}

// A refusal's number (rule 5.1).
// Kept: the numbers are rule 5.1's and the C interface's, and 10 is retired, so that they are named one by one.
#[tactic(auto, unfolding(crate::specs::Numbers::number_of))]
pub fn number(refusal: Refusal) -> u8
    ensures { result ≡ number_of refusal }
{
    match refusal {
        Refusal::Introducer => 1,
        Refusal::HeaderEnded => 2,
        Refusal::HeaderByte => 3,
        Refusal::Repeat => 4,
        Refusal::Size => 5,
        Refusal::Pixels => 6,
        Refusal::Room => 7,
        Refusal::Unfinished => 8,
        Refusal::Failed => 9,
        Refusal::FinalSize => 10,
        Refusal::Opening => 11,
        Refusal::Canvas => 12,
        Refusal::Allowance => 13,
        Refusal::Buffer => 14,
    }
}

// Where the next sixel goes, how often, and in which colour.
#[derive(Clone, Copy)]
pub struct Pen {
    pub column: usize,
    pub row: usize,
    pub repeat: usize,
    pub register: usize,
    pub color: [u8; 4],
}

// The visible area: (0, 0) to its width and height.
#[derive(Clone, Copy)]
pub struct VisibleArea {
    pub width: usize,
    pub height: usize,
}

// The extent (rule 4.4).
#[derive(Clone, Copy)]
pub struct Extent {
    pub right: usize,
    pub bottom: usize,
}

// The ratio and the sizes kept, each 0 where there is none.
#[derive(Clone, Copy)]
pub struct Raster {
    pub ratio: u8,
    pub width: usize,
    pub height: usize,
}

#[derive(Clone, Copy, PartialEq, Eq)]
pub enum Kind {
    Data,
    Repeat,
    Color,
    Raster,
}

// The command that has begun, if any, and its number or its values so far.
#[derive(Clone, Copy)]
pub struct Command {
    pub kind: Kind,
    pub number: u64,
    pub parameters: Parameters,
}

#[derive(Clone, Copy)]
pub struct Frame {
    pub pen: Pen,
    pub area: VisibleArea,
    pub extent: Extent,
    pub raster: Raster,
    // How many definitions had a held value (rule 9.10).
    pub held: u64,
    pub command: Command,
}

// What reading came to: what there was is read, or a byte stays unread.
// Kept: it stands beside the frame and the counts in `Progress`, on a refusal too, so that no `?` can hand a refusal on.
#[derive(Clone, Copy)]
pub enum Outcome {
    Read,
    Stopped,
    Ended(u8),
    Refused(Refusal),
}

// Where reading a byte, or some, has led. A byte that ends the pending command is not consumed by that: it is still to be read.
#[derive(Clone, Copy)]
pub struct Progress {
    pub frame: Frame,
    pub consumed: usize,
    pub ink: usize,
    pub outcome: Outcome,
}
