// A sixel that is painted by itself, as often as it is repeated: one that stands alone, or that of a repeat command.
ghost use Rattle.std.specs.Prelude.{◌≡◌, ◌+◌, ◌<◌, length, get_or, true, IfSome, Ok};
ghost use Rattle.numbers.specs.Bytes.{sixel, bang};
ghost use Rattle.colours.specs.declared.Palette.{Palette};
ghost use Rattle.frame.specs.declared.Kind.TheVariants as kinds;
ghost use Rattle.frame.specs.Sizes.{sixel_area};
ghost use Rattle.reference.specs.Step.{Fits, Holds};
ghost use Rattle.fast.specs.Advance.{settled_to, settled_if, Said, Draws, drawing_of, Advances};

use crate::argument::number_before;
use crate::rows::{Brush, paint_rows};
use crate::{Advance, advance_to, nothing};
use frame::commands::without_command;
use frame::sizes::sixel_area;
use frame::{Frame, Ground, Pen, VisibleArea};
use reference::{after_sixel, grow};

// Paints a repeated sixel on an area that holds it, unless its ink exceeds what is left.
// Kept: (b) `paint` of the reference machine is its like; with one painter for both, the loop took longer with an older compiler (docs/DECISIONS.md).
fn paint_repeated(
    frame: Frame,
    ground: Ground,
    canvas: &mut [u8],
    bytes: &[u8],
    from: usize,
    left: usize,
    area: VisibleArea,
) -> Advance
    requires { Fits frame ground (length canvas.old) × Holds frame ground area.width area.height
        × (frame.command.kind ≡ kinds.Data) × (from < length bytes.now) × (sixel (get_or bytes.now from 0) ≡ true)
        × (sixel_area frame.pen frame.area ground ≡ Ok area) }
    ensures { (p : Palette)
        → Advances ground bytes.now from left frame p canvas.old result p canvas.new }
{
    let bits = bytes[from] - 63;
    let ones = bits.count_ones() as usize;
    let ink = ones * frame.pen.repeat;
    if left < ink {
        return nothing(frame, from);
    }
    grow(frame, ground, canvas, area);
    let px = frame.pen.color;
    let brush = Brush {
        stride: ground.stride,
        column: frame.pen.column,
        row: frame.pen.row,
        px,
    };
    paint_rows(canvas, brush, frame.pen.repeat, bits);
    advance_to(after_sixel(frame, bits, area), false, from + 1, ink)
}

// The sixel of a repeat.
fn read_repeated(
    frame: Frame,
    ground: Ground,
    canvas: &mut [u8],
    bytes: &[u8],
    from: usize,
    left: usize,
) -> Advance
    requires { Fits frame ground (length canvas.old) × (frame.command.kind ≡ kinds.Data) × (from < length bytes.now)
        × (sixel (get_or bytes.now from 0) ≡ true) }
    ensures { (p : Palette)
        → Advances ground bytes.now from left frame p canvas.old result p canvas.new }
{
    match sixel_area(frame, ground) {
        Ok(area) => paint_repeated(frame, ground, canvas, bytes, from, left, area),
        Err(_) => nothing(frame, from),
    }
}

// A sixel that is painted by itself: its repeat and its place, and whether a repeat command said it.
#[derive(Clone, Copy)]
pub struct Drawn {
    pub repeat: usize,
    pub at: usize,
    pub said: bool,
}

// The sixel of a repeat command, where a number within the limit and a sixel stand after the `!`.
fn said_at(bytes: &[u8], from: usize, most: usize) -> Option<Drawn>
    requires { (from < length bytes.now) × (get_or bytes.now from 0 ≡ bang) }
    ensures { IfSome result (λ d. (d.said ≡ true) × Said bytes.now from most d) }
{
    let number = number_before(bytes, from + 1)?;
    let count = number.value as usize;
    if most < count {
        return None;
    }
    Some(Drawn {
        repeat: count.max(1),
        at: number.end,
        said: true,
    })
}

// The sixel that stands at a place, or that of a repeat command.
fn drawn_at(pen: Pen, bytes: &[u8], from: usize, most: usize) -> Option<Drawn>
    requires { from < length bytes.now }
    ensures { IfSome result (Draws pen bytes.now from most) }
{
    let byte = bytes[from];
    if numbers::is_sixel(byte) {
        return Some(Drawn {
            repeat: pen.repeat,
            at: from,
            said: false,
        });
    }
    if byte == b'!' {
        return said_at(bytes, from, most);
    }
    None
}

// The frame that it is drawn with: no command is pending after a repeat command.
fn drawing(frame: Frame, drawn: Drawn) -> Frame
    ensures { result ≡ drawing_of frame drawn }
{
    if drawn.said {
        let mut next = frame;
        next.pen.repeat = drawn.repeat;
        return without_command(next);
    }
    frame
}

// An advance after a command that was read before it.
fn settled(advance: Advance) -> Advance
    ensures { result ≡ settled_to advance }
{
    Advance {
        settled: true,
        ..advance
    }
}

// The same, where one was.
fn settled_if(advance: Advance, said: bool) -> Advance
    ensures { result ≡ settled_if said advance }
{
    if said {
        return settled(advance);
    }
    advance
}

// A sixel by itself, or a repeat command and the sixel after it, in one turn of the loop. Anything else is the reference machine's.
// Asks that the visible area has room on the canvas, that no command is pending, and that the place is among the bytes.
pub fn read_drawn(
    frame: Frame,
    ground: Ground,
    canvas: &mut [u8],
    bytes: &[u8],
    from: usize,
    left: usize,
) -> Advance
    requires { Fits frame ground (length canvas.old) × (frame.command.kind ≡ kinds.Data) × (from < length bytes.now) }
    ensures { (p : Palette)
        → Advances ground bytes.now from left frame p canvas.old result p canvas.new }
{
    let Some(drawn) = drawn_at(frame.pen, bytes, from, ground.limits.repeats) else {
        return nothing(frame, from);
    };
    let advance = read_repeated(drawing(frame, drawn), ground, canvas, bytes, drawn.at, left);
    settled_if(advance, drawn.said)
}
