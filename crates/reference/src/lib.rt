// The reference machine: what one byte does to a frame, a palette and a canvas. The fast machine is proved equal to it.
#![tactic(auto)]

pub mod extent;

ghost use Rattle.std.specs.Prelude.{◌≡◌, ◌+◌, ◌≤◌, ◌<◌, min, ◌&&◌, eqb, length};
ghost use Rattle.numbers.specs.Bytes.{semicolon};
ghost use Rattle.canvas.specs.Picture.{rows_of};
ghost use Rattle.colours.specs.declared.Palette.{Palette};
ghost use Rattle.colours.specs.Palette.{of_table};
ghost use Rattle.frame.specs.Commands.{unread_as};
ghost use Rattle.reference.specs.Step.{Fits, Holds, Reached, read_as, area_grown, passed_to, inked, canvas_after, painted_on, drawn_by, row_ceiling, moved_to, own_of, data_step, takes_semicolon, settled_step, argument_step, step_of};

use extent::{bottom_after, right_after};
use frame::commands::{begin_command, end_command, extend_by_digit, extend_by_semicolon};
use frame::sizes::sixel_area;
use frame::{Extent, Frame, Ground, Kind, Outcome, Progress, VisibleArea};

// The row saturates here, above every height limit.
const ROW_CEILING: usize = 1_000_002;

pub fn row_below(row: usize) -> usize
    ensures { result ≡ min (row + 6) row_ceiling }
{
    row.min(ROW_CEILING - 6) + 6
}

// The byte was read.
#[tactic(auto, unfolding(crate::specs::Step::read_as))]
pub fn read(frame: Frame, ink: usize) -> Progress
    ensures { result ≡ read_as frame ink }
{
    Progress {
        frame,
        consumed: 1,
        ink,
        outcome: Outcome::Read,
    }
}

// The byte stays unread.
#[tactic(auto, unfolding(frame::specs::Commands::unread_as))]
pub fn unread(frame: Frame, outcome: Outcome) -> Progress
    ensures { result ≡ unread_as frame outcome }
{
    Progress {
        frame,
        consumed: 0,
        ink: 0,
        outcome,
    }
}

// The frame past the columns of a sixel, or of a run of them, with an extent and on an area.
// Inner: asks that it ends below what a number can hold.
#[tactic(auto, unfolding(crate::specs::Step::passed_to, crate::specs::Step::pen_after))]
pub fn passed(frame: Frame, extent: Extent, area: VisibleArea) -> Frame
    requires { frame.pen.column + frame.pen.repeat < 18446744073709551616 }
    ensures { result ≡ passed_to frame extent area.width area.height }
{
    let column = frame.pen.column + frame.pen.repeat;
    let mut next = frame;
    next.pen.column = column;
    next.pen.repeat = 1;
    next.area = area;
    next.extent = extent;
    next
}

// The frame after a sixel, on an area.
// Inner: asks that the sixel ends below what a number can hold, and that it has no more than six bits.
#[tactic(auto, unfolding(crate::specs::Step::inked, crate::specs::Step::extent_after))]
pub fn after_sixel(frame: Frame, bits: u8, area: VisibleArea) -> Frame
    requires { (frame.pen.column + frame.pen.repeat < 18446744073709551616) × (frame.pen.row + 6 < 18446744073709551616)
        × (bits < 64) }
    ensures { result ≡ inked frame bits area.width area.height }
{
    let end = frame.pen.column + frame.pen.repeat;
    let right = right_after(frame.extent.right, bits, end);
    let bottom = bottom_after(frame.extent.bottom, bits, frame.pen.row);
    passed(frame, Extent { right, bottom }, area)
}

// Paints what a frame's area grows to.
// Inner: asks that the new area has the old one in it and is on the canvas.
#[tactic(auto, unfolding(crate::specs::Step::area_grown))]
pub fn grow(frame: Frame, ground: Ground, canvas: &mut [u8], area: VisibleArea)
    requires { (frame.area.width ≤ area.width) × (area.width ≤ ground.stride) × (frame.area.height ≤ area.height)
        × (area.height ≤ rows_of (length canvas.old) ground.stride) }
    ensures { canvas.new ≡ area_grown frame ground area.width area.height canvas.old }
{
    let background = ground.background;
    canvas::grow(
        canvas,
        ground.stride,
        frame.area.width,
        frame.area.height,
        area.width,
        area.height,
        background,
    );
}

// Paints the area that a sixel grows, and the sixel.
#[tactic(auto, unfolding(crate::specs::Step::canvas_after))]
fn put(frame: Frame, ground: Ground, canvas: &mut [u8], bits: u8, area: VisibleArea)
    requires { Fits frame ground (length canvas.old) × Holds frame ground area.width area.height }
    ensures { canvas.new ≡ canvas_after frame ground bits area.width area.height canvas.old }
{
    grow(frame, ground, canvas, area);
    let color = frame.pen.color;
    canvas::paint_sixel(
        canvas,
        ground.stride,
        frame.pen.column,
        frame.pen.row,
        frame.pen.repeat,
        bits,
        color,
    );
}

// Paints a sixel that has passed its limits, unless its ink exceeds what is left.
#[tactic(auto, unfolding(crate::specs::Step::painted_on))]
fn paint(
    frame: Frame,
    ground: Ground,
    canvas: &mut [u8],
    bits: u8,
    left: usize,
    area: VisibleArea,
) -> Progress
    requires { Fits frame ground (length canvas.old) × Holds frame ground area.width area.height × (bits < 64) }
    ensures { (p : Palette) → record { progress = result; palette = p; canvas = canvas.new }
        ≡ painted_on frame ground bits left area.width area.height p canvas.old }
{
    let ones = bits.count_ones() as usize;
    let ink = ones * frame.pen.repeat;
    if left < ink {
        return unread(frame, Outcome::Stopped);
    }
    put(frame, ground, canvas, bits, area);
    read(after_sixel(frame, bits, area), ink)
}

#[tactic(auto, unfolding(crate::specs::Step::drawn_by, crate::specs::Step::drawn_in, frame::specs::Commands::refused_as))]
fn draw_sixel(frame: Frame, ground: Ground, canvas: &mut [u8], bits: u8, left: usize) -> Progress
    requires { Fits frame ground (length canvas.old) × (bits < 64) }
    ensures { (p : Palette) → record { progress = result; palette = p; canvas = canvas.new }
        ≡ drawn_by frame ground bits left p canvas.old }
{
    match sixel_area(frame, ground) {
        Ok(area) => paint(frame, ground, canvas, bits, left, area),
        Err(refusal) => unread(frame, Outcome::Refused(refusal)),
    }
}

#[tactic(auto, unfolding(crate::specs::Step::moved_to))]
fn moved(frame: Frame, row: usize) -> Frame
    ensures { result ≡ moved_to frame row }
{
    let mut next = frame;
    next.pen.column = 0;
    next.pen.row = row;
    next
}

// The own effect of a byte that is no sixel and ends nothing.
#[tactic(auto, unfolding(crate::specs::Step::own_of))]
pub fn own_effect(frame: Frame, byte: u8) -> Frame
    ensures { result ≡ own_of frame byte }
{
    match byte {
        b'#' => begin_command(frame, Kind::Color, 5),
        b'!' => begin_command(frame, Kind::Repeat, 0),
        b'$' => moved(frame, frame.pen.row),
        b'-' => moved(frame, row_below(frame.pen.row)),
        b'"' => begin_command(frame, Kind::Raster, 4),
        _ => frame,
    }
}

// A byte while no command is pending.
#[tactic(auto, unfolding(crate::specs::Step::data_step))]
fn data_step(frame: Frame, ground: Ground, canvas: &mut [u8], byte: u8, left: usize) -> Progress
    requires { Fits frame ground (length canvas.old) }
    ensures { (p : Palette) → record { progress = result; palette = p; canvas = canvas.new }
        ≡ data_step frame ground byte left p canvas.old }
{
    if numbers::is_sixel(byte) {
        return draw_sixel(frame, ground, canvas, byte - 63, left);
    }
    if numbers::ends_payload(byte) {
        return unread(frame, Outcome::Ended(byte));
    }
    read(own_effect(frame, byte), 0)
}

// Whether `;` belongs to the argument.
#[tactic(auto, unfolding(crate::specs::Step::takes_semicolon))]
fn takes_semicolon(kind: Kind) -> bool
    ensures { result ≡ takes_semicolon kind }
{
    matches!(kind, Kind::Color | Kind::Raster)
}

// A `;` that belongs to the argument.
pub fn parts_values(byte: u8, kind: Kind) -> bool
    ensures { result ≡ (eqb byte semicolon && takes_semicolon kind) }
{
    byte == b';' && takes_semicolon(kind)
}

// Ends the pending command, and paints the area that it grew.
fn settle(frame: Frame, ground: Ground, colors: &mut [u32; 256], canvas: &mut [u8]) -> Progress
    requires { Fits frame ground (length canvas.old) }
    ensures { record { progress = result; palette = of_table colors.new; canvas = canvas.new }
        ≡ settled_step frame ground (of_table colors.old) canvas.old }
{
    let ended = end_command(frame, ground, colors);
    grow(frame, ground, canvas, ended.frame.area);
    ended
}

// A byte while a command is pending: it belongs to the argument, or it ends the command and is still to be read.
#[tactic(auto, unfolding(crate::specs::Step::argument_step))]
fn argument_step(
    frame: Frame,
    ground: Ground,
    colors: &mut [u32; 256],
    canvas: &mut [u8],
    byte: u8,
) -> Progress
    requires { Fits frame ground (length canvas.old) }
    ensures { record { progress = result; palette = of_table colors.new; canvas = canvas.new }
        ≡ argument_step frame ground byte (of_table colors.old) canvas.old }
{
    if numbers::is_digit(byte) {
        return read(extend_by_digit(frame, byte), 0);
    }
    if numbers::is_skipped(byte) {
        return read(frame, 0);
    }
    if parts_values(byte, frame.command.kind) {
        return read(extend_by_semicolon(frame), 0);
    }
    settle(frame, ground, colors, canvas)
}

// One byte.
// Inner: asks that the visible area has room on the canvas.
// Kept: docs/EXCEPTIONS.md names the function with what it asks; a type that holds `Fits` would ask it of callers in another place.
#[tactic(auto, unfolding(crate::specs::Step::step_of, crate::specs::Step::step_in))]
pub fn step(
    frame: Frame,
    ground: Ground,
    colors: &mut [u32; 256],
    canvas: &mut [u8],
    byte: u8,
    left: usize,
) -> Progress
    requires { Fits frame ground (length canvas.old) }
    ensures { record { progress = result; palette = of_table colors.new; canvas = canvas.new }
        ≡ step_of frame ground byte left (of_table colors.old) canvas.old }
{
    if frame.command.kind == Kind::Data {
        return data_step(frame, ground, canvas, byte, left);
    }
    argument_step(frame, ground, colors, canvas, byte)
}
