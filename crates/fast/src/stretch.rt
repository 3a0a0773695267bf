// Sixels side by side, painted once each: counted, or painted and counted at once, or painted where they have been counted.
ghost use Rattle.std.specs.Prelude.{◌≡◌, ◌+◌, ◌≤◌, ◌<◌, true, false, length, get_or};
ghost use Rattle.numbers.specs.Bytes.{sixel};
ghost use Rattle.canvas.specs.Picture.{rows_of};
ghost use Rattle.canvas.specs.Paint.{sixel_painted};
ghost use Rattle.fast.specs.Blend.{sixels_at};
ghost use Rattle.fast.specs.Run.{Sixels, Laid};

use crate::blend::{blend_four, ink_of, ink_of_four};
use crate::rows::{Brush, paint_rows};

// The bytes of a sixel without ink, and of one with all of it.
pub const BLANK: u8 = 63;

pub const FULL: u8 = 126;

// How many sixels stand from a place on, up to so many.
// Asks that so many bytes are there.
pub fn run_length(bytes: &[u8], from: usize, most: usize) -> usize
    requires { from + most ≤ length bytes.now }
    ensures { (result ≤ most) × Sixels bytes.now from (from + result) }
{
    bytes[from..from + most]
        .iter()
        .position(|&byte| !numbers::is_sixel(byte))
        .unwrap_or(most)
}

// So many sixels, and their ink.
#[derive(Clone, Copy)]
pub struct Stretch {
    pub count: usize,
    pub ink: usize,
}

// Whether the four bytes from a place on are sixels. Yes is certain.
fn four_stand(bytes: &[u8], at: usize) -> bool
    requires { at + 4 ≤ length bytes.now }
    ensures { result ≡ true → Sixels bytes.now at (at + 4) }
{
    run_length(bytes, at, 4) == 4
}

// Their bits.
fn four_at(bytes: &[u8], at: usize) -> [u8; 4]
    requires { Sixels bytes.now at (at + 4) }
    ensures { result ≡ sixels_at bytes.now at }
{
    [
        bytes[at] - 63,
        bytes[at + 1] - 63,
        bytes[at + 2] - 63,
        bytes[at + 3] - 63,
    ]
}

// Paints the sixels that stand from a place on as far as they stand by fours, up to so many, and counts them at once. Blank ones are
// painted too: where they are mixed, to foretell which is blank costs more than to write what is there.
fn blend_fours(canvas: &mut [u8], brush: Brush, bytes: &[u8], from: usize, most: usize) -> Stretch
    requires { (from + most ≤ length bytes.now) × (brush.column + most ≤ brush.stride) × (brush.row + 6 ≤ rows_of (length canvas.old) brush.stride) }
    ensures { (result.count ≤ most)
        × Laid brush.stride brush.column brush.row brush.px bytes.now from result.count result.ink canvas.old canvas.new }
{
    let mut ink = 0;
    for quad in 0..most / 4 {
        let count = 4 * quad;
        if !four_stand(bytes, from + count) {
            return Stretch { count, ink };
        }
        let four = four_at(bytes, from + count);
        ink += ink_of_four(four);
        let here = Brush {
            column: brush.column + count,
            ..brush
        };
        blend_four(canvas, here, four);
    }
    Stretch {
        count: 4 * (most / 4),
        ink,
    }
}

// Paints the sixels that stand from a place on one by one, up to so many, and counts them at once.
fn paint_singly(canvas: &mut [u8], brush: Brush, bytes: &[u8], from: usize, most: usize) -> Stretch
    requires { (from + most ≤ length bytes.now) × (brush.column + most ≤ brush.stride) × (brush.row + 6 ≤ rows_of (length canvas.old) brush.stride) }
    ensures { (result.count ≤ most)
        × Laid brush.stride brush.column brush.row brush.px bytes.now from result.count result.ink canvas.old canvas.new
        × (result.count < most → sixel (get_or bytes.now (from + result.count) 0) ≡ false) }
{
    let mut ink = 0;
    for count in 0..most {
        let byte = bytes[from + count];
        if !numbers::is_sixel(byte) {
            return Stretch { count, ink };
        }
        let bits = byte - 63;
        ink += ink_of(bits);
        let here = Brush {
            column: brush.column + count,
            ..brush
        };
        paint_rows(canvas, here, 1, bits);
    }
    Stretch { count: most, ink }
}

// The same by fours, and only what is left of them one by one.
// Asks that so many bytes are there, and so many columns and the six rows on the canvas.
pub fn blend_sixels(
    canvas: &mut [u8],
    brush: Brush,
    bytes: &[u8],
    from: usize,
    most: usize,
) -> Stretch
    requires { (from + most ≤ length bytes.now) × (brush.column + most ≤ brush.stride) × (brush.row + 6 ≤ rows_of (length canvas.old) brush.stride) }
    ensures { (result.count ≤ most)
        × Laid brush.stride brush.column brush.row brush.px bytes.now from result.count result.ink canvas.old canvas.new
        × (result.count < most → sixel (get_or bytes.now (from + result.count) 0) ≡ false) }
{
    let fours = blend_fours(canvas, brush, bytes, from, most);
    let done = fours.count;
    let here = Brush {
        column: brush.column + done,
        ..brush
    };
    let rest = paint_singly(canvas, here, bytes, from + done, most - done);
    Stretch {
        count: done + rest.count,
        ink: fours.ink + rest.ink,
    }
}

// Paints a full sixel once.
fn paint_full(canvas: &mut [u8], brush: Brush)
    requires { (brush.column + 1 ≤ brush.stride) × (brush.row + 6 ≤ rows_of (length canvas.old) brush.stride) }
    ensures { canvas.new ≡ sixel_painted brush.stride brush.column brush.row 1 63 brush.px canvas.old }
{
    for k in 0..6 {
        let at = (brush.row + k) * brush.stride + brush.column;
        canvas::fill_span(canvas, at, at + 1, brush.px);
    }
}

// Paints sixels side by side, and says their ink. Blank and full ones come in rows in maps, are predicted well and have nothing to blend; from
// the first other one on all are blended.
// Asks that the bytes are sixels, and that their columns and the six rows are on the canvas.
pub fn paint_sixels(
    canvas: &mut [u8],
    brush: Brush,
    bytes: &[u8],
    from: usize,
    count: usize,
) -> usize
    requires { Sixels bytes.now from (from + count) × (brush.column + count ≤ brush.stride)
        × (brush.row + 6 ≤ rows_of (length canvas.old) brush.stride) }
    ensures { Laid brush.stride brush.column brush.row brush.px bytes.now from count result canvas.old canvas.new }
{
    let mut ink = 0;
    for k in 0..count {
        let byte = bytes[from + k];
        if byte == BLANK {
            continue;
        }
        let here = Brush {
            column: brush.column + k,
            ..brush
        };
        if byte != FULL {
            let rest = blend_sixels(canvas, here, bytes, from + k, count - k);
            return ink + rest.ink;
        }
        paint_full(canvas, here);
        ink += 6;
    }
    ink
}
