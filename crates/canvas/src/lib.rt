// The canvas: lent bytes, four to a pixel (red, green, blue, alpha), `stride` pixels to a row. Painting here never asks
// how large the visible area is: whoever paints has tested that, once for a sixel or for many.
#![tactic(auto)]

ghost use Rattle.std.specs.Prelude.{◌≡◌, ◌+◌, ◌*◌, ◌≤◌, ◌++◌, length, drop};
ghost use Rattle.std.proofs.Math.Seq.{paste};
ghost use Rattle.canvas.specs.Picture.{area_of, rows_of, grid, span};
ghost use Rattle.canvas.specs.Paint.{painted, rectangle, sixel_painted, grown};
ghost use Rattle.canvas.specs.Copy.{number_of, has_picture, rows_copied, copied};

// The whole rows of a canvas of `length` bytes; none where the stride is 0.
pub fn rows(length: usize, stride: usize) -> usize
    ensures { result ≡ rows_of length stride }
{
    if stride == 0 {
        return 0;
    }
    length / 4 / stride
}

// Paints the pixels from `from` up to `to`, counted through the canvas: four stores a pixel, which the compiler merges.
// Inner: asks that the pixels are on the canvas.
pub fn fill_span(canvas: &mut [u8], from: usize, to: usize, px: [u8; 4])
    requires { (from ≤ to) × (4 * to ≤ length canvas.old) }
    ensures { canvas.new ≡ painted (span from to) px canvas.old }
{
    for p in from..to {
        let i = 4 * p;
        canvas[i] = px[0];
        canvas[i + 1] = px[1];
        canvas[i + 2] = px[2];
        canvas[i + 3] = px[3];
    }
}

// Paints a sixel: of its six rows those whose bit is 1, the lowest bit on top, each for `repeat` columns.
// Inner: asks that the sixel's columns and six rows are on the canvas.
pub fn paint_sixel(
    canvas: &mut [u8],
    stride: usize,
    column: usize,
    row: usize,
    repeat: usize,
    bits: u8,
    px: [u8; 4],
)
    requires { (column + repeat ≤ stride) × (row + 6 ≤ rows_of (length canvas.old) stride) }
    ensures { canvas.new ≡ sixel_painted stride column row repeat bits px canvas.old }
{
    for k in 0..6 {
        if (bits >> k) % 2 == 1 {
            let from = (row + k) * stride + column;
            fill_span(canvas, from, from + repeat, px);
        }
    }
}

// Paints the columns from `left` up to `right` of the rows from `top` up to `bottom`.
// Asks that they are on the canvas.
fn fill_rectangle(
    canvas: &mut [u8],
    stride: usize,
    left: usize,
    right: usize,
    top: usize,
    bottom: usize,
    px: [u8; 4],
)
    requires { (left ≤ right) × (right ≤ stride) × (top ≤ bottom) × (bottom ≤ rows_of (length canvas.old) stride) }
    ensures { canvas.new ≡ painted (grid stride (rectangle left right top bottom)) px canvas.old }
{
    // Rows of no pixels are not walked through, so that the cost goes by the pixels.
    if left == right {
        return;
    }
    for y in top..bottom {
        fill_span(canvas, y * stride + left, y * stride + right, px);
    }
}

// Grows the visible area: each new pixel gets the background, and nothing else changes.
// Inner: asks that the new area has the old one in it and is on the canvas.
pub fn grow(
    canvas: &mut [u8],
    stride: usize,
    width: usize,
    height: usize,
    new_width: usize,
    new_height: usize,
    background: [u8; 4],
)
    requires { (width ≤ new_width) × (new_width ≤ stride) × (height ≤ new_height) × (new_height ≤ rows_of (length canvas.old) stride) }
    ensures { canvas.new ≡ grown stride (area_of width height) (area_of new_width new_height) background canvas.old }
{
    fill_rectangle(canvas, stride, width, new_width, 0, height, background);
    fill_rectangle(canvas, stride, 0, new_width, height, new_height, background);
}

// Gives pixel (0, 0) the background.
// Inner: asks that the canvas has a pixel.
pub fn first_pixel(canvas: &mut [u8], background: [u8; 4])
    requires { 4 ≤ length canvas.old }
    ensures { canvas.new ≡ painted (span 0 1) background canvas.old }
{
    fill_span(canvas, 0, 1, background);
}

// Why a picture is not copied.
#[derive(Clone, Copy, PartialEq, Eq, Debug)]
pub enum Uncopied {
    // The canvas has no such picture.
    Misfit,
    // The other buffer is too short.
    Short,
}

// Says whether a canvas of `length` bytes has a picture of this size.
pub fn has_picture(length: usize, stride: usize, width: usize, height: usize) -> bool
    ensures { result ≡ has_picture stride length (area_of width height) }
{
    0 < stride && 0 < width && 0 < height && width <= stride && height <= rows(length, stride)
}

// Copies `count` bytes of the canvas from `from` on to `out` from `at` on, one by one.
fn copy_each(canvas: &[u8], from: usize, out: &mut [u8], at: usize, count: usize)
    requires { (from + count ≤ length canvas.now) × (at + count ≤ length out.old) }
    ensures { out.new ≡ paste out.old at (drop from canvas.now) count }
{
    for j in 0..count {
        out[at + j] = canvas[from + j];
    }
}

// Rows of fewer bytes are too short for blocks of 16.
const SHORT: usize = 16;

// Rows of as many bytes or more repay a call of the library's copy.
const LONG: usize = 768;

// Copies as `copy_each` does. That a short row is told apart lets the compiler leave the search for blocks out of its loop: rows of one
// pixel take two thirds of the time.
fn copy_bytes(canvas: &[u8], from: usize, out: &mut [u8], at: usize, count: usize)
    requires { (from + count ≤ length canvas.now) × (at + count ≤ length out.old) }
    ensures { out.new ≡ paste out.old at (drop from canvas.now) count }
{
    if count < SHORT {
        copy_each(canvas, from, out, at, count);
    } else if count < LONG {
        copy_each(canvas, from, out, at, count);
    } else {
        out[at..at + count].copy_from_slice(&canvas[from..from + count]);
    }
}

// Copies the rows of a picture, each from its canvas's stride to that of `out`.
// Inner: asks that the canvas has them, and `out` the room.
pub fn copy_rows(
    canvas: &[u8],
    stride: usize,
    width: usize,
    height: usize,
    out: &mut [u8],
    out_stride: usize,
)
    requires { (width ≤ stride) × (4 * (height * stride) ≤ length canvas.now) × (width ≤ out_stride) × (4 * (height * out_stride) ≤ length out.old) }
    ensures { out.new ≡ rows_copied stride out_stride width height canvas.now out.old }
{
    for y in 0..height {
        let from = 4 * (y * stride);
        let at = 4 * (y * out_stride);
        copy_bytes(canvas, from, out, at, 4 * width);
    }
}

// Copies a picture's rows, tightly packed, to the front of `out`, or says why not and writes nothing.
pub fn copy_picture(
    canvas: &[u8],
    stride: usize,
    width: usize,
    height: usize,
    out: &mut [u8],
) -> Result<(), Uncopied>
    ensures { (number_of result, out.new) ≡ copied stride (area_of width height) canvas.now out.old }
{
    if !has_picture(canvas.len(), stride, width, height) {
        return Err(Uncopied::Misfit);
    }
    if out.len() < 4 * (width * height) {
        return Err(Uncopied::Short);
    }
    copy_rows(canvas, stride, width, height, out, width);
    Ok(())
}
