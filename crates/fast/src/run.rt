// A run of sixels that are painted once each. Where its area grows, or it is blank or full at first, it is planned whole: counted, tested and
// given its area at once, then painted without a test for each. Any other is painted while it is counted. To the limits a run is one sixel
// that is repeated so often.
ghost use Rattle.std.specs.Prelude.{◌≡◌, ℕ, ◌+◌, ◌*◌, ◌≤◌, ◌<◌, true, length, get_or};
ghost use Rattle.numbers.specs.Bytes.{sixel};
ghost use Rattle.colours.specs.declared.Palette.{Palette};
ghost use Rattle.frame.specs.declared.Kind.TheVariants as kinds;
ghost use Rattle.reference.specs.Step.{Fits, Holds};
ghost use Rattle.fast.specs.Advance.{Advances};
ghost use Rattle.fast.specs.Run.{Sixels, planned, run_advance, run_canvas};

use crate::reach::extent_after;
use crate::rows::Brush;
use crate::stretch::{BLANK, FULL, blend_sixels, paint_sixels, run_length};
use crate::{Advance, advance_to, nothing};
use frame::sizes::{reaches, sixel_area};
use frame::{Frame, Ground, VisibleArea};
use reference::{grow, passed};

// The most sixels of a run. One that is refused whole is counted again at each byte, so that it must not be long.
const LONGEST: usize = 256;

// Paints the area that a run grows, and the run.
fn paint_run(
    frame: Frame,
    ground: Ground,
    canvas: &mut [u8],
    bytes: &[u8],
    from: usize,
    area: VisibleArea,
) -> Advance
    requires { Fits frame ground (length canvas.old) × Holds frame ground area.width area.height
        × Sixels bytes.now from (from + frame.pen.repeat) }
    ensures { (result ≡ run_advance frame area.width area.height bytes.now from)
        × (canvas.new ≡ run_canvas frame ground area.width area.height bytes.now from canvas.old) }
{
    grow(frame, ground, canvas, area);
    let count = frame.pen.repeat;
    let px = frame.pen.color;
    let brush = Brush {
        stride: ground.stride,
        column: frame.pen.column,
        row: frame.pen.row,
        px,
    };
    let ink = paint_sixels(canvas, brush, bytes, from, count);
    let reached = extent_after(frame, bytes, from);
    advance_to(passed(frame, reached, area), false, from + count, ink)
}

// As one sixel that is repeated so often.
fn as_repeated(frame: Frame, count: usize) -> Frame
    ensures { result ≡ planned frame count }
{
    let mut next = frame;
    next.pen.repeat = count;
    next
}

// A run of so many sixels, or none where the limits refuse it.
fn read_sixels(
    frame: Frame,
    ground: Ground,
    canvas: &mut [u8],
    bytes: &[u8],
    from: usize,
    count: usize,
) -> Advance
    requires { Fits frame ground (length canvas.old) × (frame.command.kind ≡ kinds.Data) × (frame.pen.repeat ≡ 1)
        × Sixels bytes.now from (from + count) × (1 ≤ count) }
    ensures { (p : Palette) (left : ℕ) → 6 * count ≤ left
        → Advances ground bytes.now from left frame p canvas.old result p canvas.new }
{
    let whole = as_repeated(frame, count);
    match sixel_area(whole, ground) {
        Ok(area) => paint_run(whole, ground, canvas, bytes, from, area),
        Err(_) => nothing(frame, from),
    }
}

// Whether a run that begins with this byte is blended: it has a column of the visible area at least, and is neither blank nor full at
// first, as runs of maps are.
fn is_blended(frame: Frame, byte: u8) -> bool
    ensures { result ≡ true → (frame.pen.column < frame.area.width) × (frame.pen.row + 6 ≤ frame.area.height) }
{
    !matches!(byte, BLANK | FULL)
        && frame.pen.column < frame.area.width
        && reaches(frame.pen.row, 6, frame.area.height)
}

// A run of up to so many sixels, one at least, on the visible area as it is.
fn read_visible(
    frame: Frame,
    ground: Ground,
    canvas: &mut [u8],
    bytes: &[u8],
    from: usize,
    most: usize,
) -> Advance
    requires { Fits frame ground (length canvas.old) × (frame.command.kind ≡ kinds.Data) × (frame.pen.repeat ≡ 1)
        × (from + most ≤ length bytes.now) × (frame.pen.column + most ≤ frame.area.width)
        × (frame.pen.row + 6 ≤ frame.area.height) × (1 ≤ most) × (sixel (get_or bytes.now from 0) ≡ true) }
    ensures { (p : Palette) (left : ℕ) → 6 * most ≤ left
        → Advances ground bytes.now from left frame p canvas.old result p canvas.new }
{
    let px = frame.pen.color;
    let brush = Brush {
        stride: ground.stride,
        column: frame.pen.column,
        row: frame.pen.row,
        px,
    };
    let painted = blend_sixels(canvas, brush, bytes, from, most);
    let whole = as_repeated(frame, painted.count);
    let reached = extent_after(whole, bytes, from);
    advance_to(
        passed(whole, reached, frame.area),
        false,
        from + painted.count,
        painted.ink,
    )
}

// The run that stands at a place, where its ink is surely within what is left.
// Asks that the visible area has room on the canvas, that no command is pending and no repeat was given, and that a sixel stands there.
pub fn read_run(
    frame: Frame,
    ground: Ground,
    canvas: &mut [u8],
    bytes: &[u8],
    from: usize,
    left: usize,
) -> Advance
    requires { Fits frame ground (length canvas.old) × (frame.command.kind ≡ kinds.Data) × (frame.pen.repeat ≡ 1)
        × (from < length bytes.now) × (sixel (get_or bytes.now from 0) ≡ true) }
    ensures { (p : Palette)
        → Advances ground bytes.now from left frame p canvas.old result p canvas.new }
{
    let most = LONGEST.min(left / 6).min(bytes.len() - from);
    if most == 0 {
        return nothing(frame, from);
    }
    if is_blended(frame, bytes[from]) {
        let visible = most.min(frame.area.width - frame.pen.column);
        return read_visible(frame, ground, canvas, bytes, from, visible);
    }
    let count = run_length(bytes, from + 1, most - 1) + 1;
    read_sixels(frame, ground, canvas, bytes, from, count)
}
