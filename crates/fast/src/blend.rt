// A pixel is painted with a new colour or with the one that it has, so that no bit is tested and none can be mispredicted. Four sixels stand
// side by side, so that a row of them is sixteen bytes in one stretch, which the compiler loads, chooses and stores at once.
ghost use Rattle.std.specs.Prelude.{◌≡◌, ◌+◌, ◌*◌, ◌≤◌, ◌<◌, cond, eqb, length, get_or};
ghost use Rattle.std.specs.Int.Count.{ones};
ghost use Rattle.canvas.specs.Picture.{rows_of};
ghost use Rattle.fast.specs.Blend.{four_at, blended, blended_across, four_ink, four_painted};

use crate::rows::Brush;

// The ink of a sixel's bits.
// Asks for no more than six bits.
pub fn ink_of(bits: u8) -> usize
    requires { bits < 64 }
    ensures { result ≡ ones bits }
{
    bits.count_ones() as usize
}

// The ink of four sixels, from the left.
// Asks for no more than six bits of each.
pub fn ink_of_four(four: [u8; 4]) -> usize
    requires { (get_or four 0 0 < 64) × (get_or four 1 0 < 64) × (get_or four 2 0 < 64) × (get_or four 3 0 < 64) }
    ensures { result ≡ four_ink four }
{
    ink_of(four[0]) + ink_of(four[1]) + ink_of(four[2]) + ink_of(four[3])
}

// A pixel of the canvas.
fn pixel_at(canvas: &[u8], at: usize) -> [u8; 4]
    requires { 4 * (at + 1) ≤ length canvas.now }
    ensures { result ≡ four_at canvas.now at }
{
    let i = 4 * at;
    [canvas[i], canvas[i + 1], canvas[i + 2], canvas[i + 3]]
}

// By whether a bit is 1. A choice of two values: by itself the compiler may make a branch of it, of four side by side it makes masks.
fn chosen(bit: u8, new: [u8; 4], old: [u8; 4]) -> [u8; 4]
    ensures { result ≡ cond (eqb bit 1) new old }
{
    if bit == 1 {
        return new;
    }
    old
}

// Paints a pixel with a new colour, or with the one that it has.
fn blend(canvas: &mut [u8], at: usize, bit: u8, px: [u8; 4])
    requires { 4 * (at + 1) ≤ length canvas.old }
    ensures { canvas.new ≡ blended at bit px canvas.old }
{
    let old = pixel_at(canvas, at);
    let mixed = chosen(bit, px, old);
    canvas::fill_span(canvas, at, at + 1, mixed);
}

// Paints four pixels side by side, each by whether its number is odd.
fn blend_across(canvas: &mut [u8], at: usize, four: [u8; 4], px: [u8; 4])
    requires { 4 * (at + 4) ≤ length canvas.old }
    ensures { canvas.new ≡ blended_across at four px canvas.old }
{
    blend(canvas, at, four[0] % 2, px);
    blend(canvas, at + 1, four[1] % 2, px);
    blend(canvas, at + 2, four[2] % 2, px);
    blend(canvas, at + 3, four[3] % 2, px);
}

// Paints four sixels, row by row.
// Asks that their columns and six rows are on the canvas.
pub fn blend_four(canvas: &mut [u8], brush: Brush, four: [u8; 4])
    requires { (brush.column + 4 ≤ brush.stride) × (brush.row + 6 ≤ rows_of (length canvas.old) brush.stride) }
    ensures { canvas.new ≡ four_painted brush.stride brush.column brush.row four brush.px canvas.old }
{
    let mut rest = four;
    for k in 0..6 {
        let at = (brush.row + k) * brush.stride + brush.column;
        blend_across(canvas, at, rest, brush.px);
        rest = [rest[0] / 2, rest[1] / 2, rest[2] / 2, rest[3] / 2];
    }
}
