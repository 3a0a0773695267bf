// The fast machine: some bytes at once, while no command is pending. A run of sixels, a sixel by itself or with its repeat, a colour with the whole of
// its argument, `$` or `-`. What the reference machine refuses, stops for or leaves unread is left to it.
#![tactic(auto)]

mod argument;
mod blend;
mod drawn;
mod reach;
mod rows;
mod run;
mod stretch;

ghost use Rattle.std.specs.Prelude.{◌≡◌, ℕ, ◌+◌, ◌≤◌, ◌<◌, List, length, get_or, true, false};
ghost use Rattle.numbers.specs.Bytes.{sixel, bang, hash};
ghost use Rattle.colours.specs.Palette.{of_table};
ghost use Rattle.colours.specs.declared.Palette.{Palette};
ghost use Rattle.frame.specs.declared.Ground.{Ground};
ghost use Rattle.frame.specs.declared.Kind.TheVariants as kinds;
ghost use Rattle.reference.specs.Step.{Fits, Holds, moved_to};
ghost use Rattle.fast.specs.Advance.{advance_to, selected_to, Advances};

use argument::{is_last, number_at, read_definition};
use drawn::read_drawn;
use frame::commands::{define, more_held, register_at};
use frame::{Extent, Frame, Ground, Pen, VisibleArea};
use reference::row_below;
use run::read_run;
use stretch::{BLANK, FULL};

// What some bytes change of a frame, whether a command was read, the place after them, and their ink. An advance that ends where it
// began took nothing. All of it is numbers, so that the loop has no frame to copy.
#[derive(Clone, Copy)]
pub struct Advance {
    pub pen: Pen,
    pub area: VisibleArea,
    pub extent: Extent,
    pub held: u64,
    pub settled: bool,
    pub end: usize,
    pub ink: usize,
}

// To a frame, whose command was read or not.
fn advance_to(frame: Frame, settled: bool, end: usize, ink: usize) -> Advance
    ensures { result ≡ advance_to frame settled end ink }
{
    Advance {
        pen: frame.pen,
        area: frame.area,
        extent: frame.extent,
        held: frame.held,
        settled,
        end,
        ink,
    }
}

// No byte is taken: the next is the reference machine's.
pub fn nothing(frame: Frame, from: usize) -> Advance
    ensures { result ≡ advance_to frame false from 0 }
{
    advance_to(frame, false, from, 0)
}

fn selected(frame: Frame, colors: &[u32; 256], value: u32, end: usize) -> Advance
    ensures { result ≡ selected_to frame (of_table colors.now) value end }
{
    let register = register_at(value);
    let color = colours::rgb_bytes(colors, register);
    let mut pen = frame.pen;
    pen.register = register;
    pen.color = color;
    let mut next = frame;
    next.pen = pen;
    advance_to(next, true, end, 0)
}

// A colour command.
fn read_color(frame: Frame, colors: &mut [u32; 256], bytes: &[u8], from: usize) -> Advance
    requires { (frame.command.kind ≡ kinds.Data) × (from < length bytes.now) × (get_or bytes.now from 0 ≡ hash) }
    ensures { (g : Ground) (l : List ℕ) (left : ℕ) → Fits frame g (length l)
        → Advances g bytes.now from left frame (of_table colors.old) l result (of_table colors.new) l }
{
    let Some(only) = number_at(bytes, from + 1) else {
        return nothing(frame, from);
    };
    if is_last(bytes, only) {
        return selected(frame, colors, only.value, only.end);
    }
    if let Some(whole) = read_definition(bytes, only) {
        let held = define(
            colors,
            register_at(whole.first),
            whole.space,
            whole.x,
            whole.y,
            whole.z,
        );
        let mut next = frame;
        next.held = more_held(frame.held, held);
        return selected(next, colors, whole.first, whole.end);
    }
    nothing(frame, from)
}

// `$` and `-`.
fn move_to(frame: Frame, row: usize, from: usize) -> Advance
    requires { from + 1 < 18446744073709551616 }
    ensures { result ≡ advance_to (moved_to frame row) false (from + 1) 0 }
{
    let mut next = frame;
    next.pen.column = 0;
    next.pen.row = row;
    advance_to(next, false, from + 1, 0)
}

// Whether no sixel stands after this one, which has some bits and not all. Blank and full ones are read as runs.
fn is_alone(bytes: &[u8], from: usize, byte: u8) -> bool
    requires { from < length bytes.now }
{
    !matches!(byte, BLANK | FULL)
        && (bytes.len() <= from + 1 || !numbers::is_sixel(bytes[from + 1]))
}

// Whether a sixel is read as the first of a run, or by itself.
fn begins_run(repeat: usize, bytes: &[u8], from: usize, byte: u8) -> bool
    requires { from < length bytes.now }
    ensures { result ≡ true → repeat ≡ 1 }
{
    repeat == 1 && !is_alone(bytes, from, byte)
}

// What stands at a place.
// Inner: asks that the visible area has room on the canvas, that no command is pending, and that the place is among the bytes.
// Kept: docs/EXCEPTIONS.md names the function with what it asks; a type that holds `Fits` would ask it of callers in another place.
pub fn read_ahead(
    frame: Frame,
    ground: Ground,
    colors: &mut [u32; 256],
    canvas: &mut [u8],
    bytes: &[u8],
    from: usize,
    left: usize,
) -> Advance
    requires { Fits frame ground (length canvas.old) × (frame.command.kind ≡ kinds.Data) × (from < length bytes.now) }
    ensures { Advances ground bytes.now from left frame (of_table colors.old) canvas.old
        result (of_table colors.new) canvas.new }
{
    let byte = bytes[from];
    if numbers::is_sixel(byte) && begins_run(frame.pen.repeat, bytes, from, byte) {
        return read_run(frame, ground, canvas, bytes, from, left);
    }
    if byte == b'#' {
        return read_color(frame, colors, bytes, from);
    }
    if byte == b'$' {
        return move_to(frame, frame.pen.row, from);
    }
    if byte == b'-' {
        return move_to(frame, row_below(frame.pen.row), from);
    }
    read_drawn(frame, ground, canvas, bytes, from, left)
}
