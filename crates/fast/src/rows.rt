// The painter of a repeated sixel.
ghost use Rattle.std.specs.Prelude.{◌≡◌, ◌+◌, ◌≤◌, ◌<◌, length};
ghost use Rattle.canvas.specs.Picture.{rows_of};
ghost use Rattle.canvas.specs.Paint.{sixel_painted};

// Where the next sixel is painted, and its colour.
#[derive(Clone, Copy)]
pub struct Brush {
    pub stride: usize,
    pub column: usize,
    pub row: usize,
    pub px: [u8; 4],
}

// Paints a sixel that is repeated, from one bit that is set to the next: a bit that is not set is not tested, so that at most the end can be
// mispredicted, and a blank one costs nothing.
// Inner: asks that the sixel's columns and six rows are on the canvas, and that it has no more than six bits.
pub fn paint_rows(canvas: &mut [u8], brush: Brush, repeat: usize, bits: u8)
    requires { (brush.column + repeat ≤ brush.stride) × (brush.row + 6 ≤ rows_of (length canvas.old) brush.stride) × (bits < 64) }
    ensures { canvas.new ≡ sixel_painted brush.stride brush.column brush.row repeat bits brush.px canvas.old }
{
    let mut rest = bits as u32;
    let mut k = 0;
    // Kept: (d) it goes from one bit that is set to the next, which no range counts.
    while 0 < rest {
        let skip = u32::trailing_zeros(rest);
        let y = k + skip as usize;
        rest = (rest >> skip) / 2;
        k = y + 1;
        let from = (brush.row + y) * brush.stride + brush.column;
        canvas::fill_span(canvas, from, from + repeat, brush.px);
    }
}
