// The bin reader of the bench, over a picture in a lent canvas: which bin a pixel column belongs to, which columns a bin has, and the topmost
// row in which a bin holds a colour. The calls are stateless, and no byte is written.
#![tactic(auto)]

ghost use Rattle.std.specs.Prelude.{◌≡◌, ◌+◌, ◌*◌, ◌≤◌, ltb, length};
ghost use Rattle.canvas.specs.Picture.{rows_of};
ghost use Rattle.bins.specs.Bins.{number_of, first_column, same, pixel, row_has, pixel_at, first_from};
ghost use Rattle.bins.specs.Bins.{setting_fits, answered, asked_bin, asked_columns, asked_top};
ghost use Rattle.bins.specs.Told.{judgement, judged_as, bin_told, columns_told, row_told, top_told};

// The most bins that a setting has.
const MOST_BINS: usize = 512;

// Where a picture stands in its canvas: the pixels of the canvas's rows, and the picture's own size.
#[derive(Clone, Copy)]
pub struct Shape {
    pub stride: usize,
    pub width: usize,
    pub height: usize,
}

// How a band map stands in its picture: `count` bins side by side from column `origin` on, each of `width` columns.
#[derive(Clone, Copy)]
pub struct Setting {
    pub origin: usize,
    pub width: usize,
    pub count: usize,
}

// Why a question is refused.
#[derive(Clone, Copy, PartialEq, Eq, Debug)]
pub enum Refusal {
    // The canvas has no such picture.
    Misfit,
    // A width or count out of range, or a last column outside the picture.
    Range,
    // A column or bin outside the setting.
    Outside,
}

// The number of a refusal.
// Kept: the numbers are rule 5.1's; docs/PROMISES.md names `bins/number.number_spec`.
#[tactic(auto, unfolding(crate::specs::Bins::number_of))]
pub fn number(refusal: Refusal) -> u8
    ensures { result ≡ number_of refusal }
{
    match refusal {
        Refusal::Misfit => 12,
        Refusal::Range => 15,
        Refusal::Outside => 16,
    }
}

// The columns of a bin, both counted in.
#[derive(Clone, Copy)]
pub struct ColumnSpan {
    pub first: usize,
    pub last: usize,
}

// Says whether a setting is in range and lies in a picture of this width. The product of count and width is not formed: it could overflow.
fn setting_fits(setting: Setting, picture_width: usize) -> bool
    ensures { result ≡ setting_fits setting picture_width }
{
    0 < setting.width
        && 0 < setting.count
        && setting.count <= MOST_BINS
        && setting.origin <= picture_width
        && setting.count <= (picture_width - setting.origin) / setting.width
}

// 12, then 15.
#[tactic(auto, unfolding(crate::specs::Told::judged_as, crate::specs::Told::judgement, crate::specs::Bins::number_of))]
fn judge(length: usize, shape: Shape, setting: Setting) -> Result<(), Refusal>
    ensures { judged_as result ≡ judgement shape length setting }
{
    if !canvas::has_picture(length, shape.stride, shape.width, shape.height) {
        return Err(Refusal::Misfit);
    }
    if !setting_fits(setting, shape.width) {
        return Err(Refusal::Range);
    }
    Ok(())
}

// Which bin a column belongs to.
pub fn bin(canvas: &[u8], shape: Shape, setting: Setting, column: usize) -> Result<usize, Refusal>
    ensures { bin_told result ≡ asked_bin shape (length canvas.now) setting column }
{
    judge(canvas.len(), shape, setting)?;
    if column < setting.origin {
        return Err(Refusal::Outside);
    }
    let found = (column - setting.origin) / setting.width;
    if setting.count <= found {
        return Err(Refusal::Outside);
    }
    Ok(found)
}

// The first column of a bin.
fn first_column(length: usize, shape: Shape, setting: Setting, bin: usize) -> Result<usize, Refusal>
    ensures { bin_told result ≡ answered shape length setting (ltb bin setting.count) (first_column setting bin) }
{
    judge(length, shape, setting)?;
    if setting.count <= bin {
        return Err(Refusal::Outside);
    }
    Ok(setting.origin + bin * setting.width)
}

// Which columns a bin has.
pub fn columns(
    canvas: &[u8],
    shape: Shape,
    setting: Setting,
    bin: usize,
) -> Result<ColumnSpan, Refusal>
    ensures { columns_told result ≡ asked_columns shape (length canvas.now) setting bin }
{
    let first = first_column(canvas.len(), shape, setting, bin)?;
    Ok(ColumnSpan {
        first,
        last: first + (setting.width - 1),
    })
}

// Says whether pixel `p`, counted through the canvas, is of this colour. Asks that it is on the canvas.
fn is_colour(canvas: &[u8], p: usize, colour: [u8; 4]) -> bool
    requires { 4 * (p + 1) ≤ length canvas.now }
    ensures { result ≡ same (pixel canvas.now p) colour }
{
    canvas[4 * p..4 * p + 4] == colour[..]
}

// Says whether one of `count` columns from `first` on is of this colour, in the row whose pixels begin at `start`.
// Asks that the columns are on the canvas.
fn row_has(canvas: &[u8], start: usize, first: usize, count: usize, colour: [u8; 4]) -> bool
    requires { 4 * (start + (first + count)) ≤ length canvas.now }
    ensures { result ≡ row_has (λ x. pixel canvas.now (start + x)) first count colour }
{
    (first..first + count).any(|x| is_colour(canvas, start + x, colour))
}

// The topmost of a picture's rows in which one of `count` columns from `first` on holds the colour.
// Asks that the columns and the rows are on the canvas.
fn top_row(
    canvas: &[u8],
    stride: usize,
    height: usize,
    first: usize,
    count: usize,
    colour: [u8; 4],
) -> Option<usize>
    requires { (first + count ≤ stride) × (height ≤ rows_of (length canvas.now) stride) }
    ensures { row_told result ≡ (first_from (λ y. row_has (λ x. pixel_at stride canvas.now x y) first count colour) 0 height) }
{
    for y in 0..height {
        if row_has(canvas, y * stride, first, count, colour) {
            return Some(y);
        }
    }
    None
}

// The topmost row of the picture in which one of a bin's columns holds a colour; all four bytes are compared.
pub fn top(
    canvas: &[u8],
    shape: Shape,
    setting: Setting,
    bin: usize,
    colour: [u8; 4],
) -> Result<Option<usize>, Refusal>
    ensures { top_told result ≡ asked_top shape canvas.now setting bin colour }
{
    let first = first_column(canvas.len(), shape, setting, bin)?;
    Ok(top_row(
        canvas,
        shape.stride,
        shape.height,
        first,
        setting.width,
        colour,
    ))
}
