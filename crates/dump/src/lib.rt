// What the program `sixdump` prints of a sequence, written into a lent buffer: a picture's fields and its rows, or a refusal.
#![tactic(auto)]

pub mod outcome;

ghost use Rattle.std.specs.Prelude.{◌≡◌, ◌+◌, ◌*◌, ◌<◌, ◌≤◌, length};
ghost use Rattle.text.specs.Text.{put};
ghost use Rattle.text.specs.Stand.{there};
ghost use Rattle.canvas.specs.Picture.{rows_of};
ghost use Rattle.dump.specs.Fields.{fields_text};
ghost use Rattle.dump.specs.Dump.{count_line, pair_line, stop_line, status_line, ratio_line, background_line, pixel_text, row_text, rows_text, picture_rows, picture_text, refusal_text};

use dcs::Ending;
use frame::Refusal;
use payload::{Ratio, Report};
use text::Cursor;

#[tactic(auto, using(crate::proofs::LineLaws::count_put))]
fn put_count(to: &mut Cursor<'_>, words: &[u8], n: usize)
    ensures buffer { to.new.out.ghost_name ≡ to.old.out.ghost_name }
    ensures text { there to.new ≡ put (count_line words.now n) (there to.old) }
{
    to.put_words(words);
    to.put_decimal(n as u64);
    to.put_byte(b'\n');
}

#[tactic(auto, using(crate::proofs::LineLaws::pair_put))]
fn put_pair(to: &mut Cursor<'_>, words: &[u8], a: usize, b: usize)
    ensures buffer { to.new.out.ghost_name ≡ to.old.out.ghost_name }
    ensures text { there to.new ≡ put (pair_line words.now a b) (there to.old) }
{
    to.put_words(words);
    to.put_decimal(a as u64);
    to.put_byte(b' ');
    to.put_decimal(b as u64);
    to.put_byte(b'\n');
}

// Kept: apart from put_pair, since a closure for the one call in which they differ is no plainer than that call.
#[tactic(auto, using(crate::proofs::LineLaws::stop_put))]
fn put_stop(to: &mut Cursor<'_>, words: &[u8], n: usize, byte: u8)
    ensures buffer { to.new.out.ghost_name ≡ to.old.out.ghost_name }
    ensures text { there to.new ≡ put (stop_line words.now n byte) (there to.old) }
{
    to.put_words(words);
    to.put_decimal(n as u64);
    to.put_byte(b' ');
    to.put_hex(byte);
    to.put_byte(b'\n');
}

#[tactic(auto, unfolding(crate::specs::Dump::status_line, text::specs::Text::words))]
fn put_status(to: &mut Cursor<'_>, ending: Ending, consumed: usize)
    ensures buffer { to.new.out.ghost_name ≡ to.old.out.ghost_name }
    ensures text { there to.new ≡ put (status_line ending consumed) (there to.old) }
{
    match ending {
        Ending::Complete => put_count(to, b"complete ", consumed),
        Ending::Cancelled(byte) => put_stop(to, b"cancelled ", consumed, byte),
        Ending::Interrupted(byte) => put_stop(to, b"interrupted ", consumed, byte),
    }
}

#[tactic(auto, using(crate::proofs::LineLaws::raster_put), unfolding(crate::specs::Dump::ratio_line, text::specs::Text::words))]
fn put_ratio(to: &mut Cursor<'_>, ratio: Ratio)
    ensures buffer { to.new.out.ghost_name ≡ to.old.out.ghost_name }
    ensures text { there to.new ≡ put (ratio_line ratio) (there to.old) }
{
    match ratio {
        Ratio::Raster(n) => {
            to.put_words(b"ratio ");
            to.put_decimal(n as u64);
            to.put_words(b":1\n");
        }
        Ratio::LeftToP1(None) => to.put_words(b"ratio p1 none\n"),
        Ratio::LeftToP1(Some(n)) => put_count(to, b"ratio p1 ", n as usize),
    }
}

#[tactic(auto, unfolding(crate::specs::Dump::background_line, text::specs::Text::words))]
fn put_background(to: &mut Cursor<'_>, is_transparent: bool)
    ensures buffer { to.new.out.ghost_name ≡ to.old.out.ghost_name }
    ensures text { there to.new ≡ put (background_line is_transparent) (there to.old) }
{
    if is_transparent {
        to.put_words(b"background transparent\n");
    } else {
        to.put_words(b"background opaque\n");
    }
}

// Pixel `p` of the canvas, as RRGGBBAA.
#[tactic(auto, using(crate::proofs::RowLaws::pixel_put))]
fn put_pixel(to: &mut Cursor<'_>, canvas: &[u8], p: usize)
    requires { 4 * p + 4 ≤ length canvas.now }
    ensures buffer { to.new.out.ghost_name ≡ to.old.out.ghost_name }
    ensures text { there to.new ≡ put (pixel_text canvas.now p) (there to.old) }
{
    let i = 4 * p;
    to.put_hex(canvas[i]);
    to.put_hex(canvas[i + 1]);
    to.put_hex(canvas[i + 2]);
    to.put_hex(canvas[i + 3]);
}

// A row of `width` pixels from pixel `p` on.
fn put_row(to: &mut Cursor<'_>, canvas: &[u8], p: usize, width: usize)
    requires { (0 < width) × (4 * (p + width) ≤ length canvas.now) }
    ensures buffer { to.new.out.ghost_name ≡ to.old.out.ghost_name }
    ensures text { there to.new ≡ put (row_text canvas.now p width) (there to.old) }
{
    put_pixel(to, canvas, p);
    for x in 1..width {
        to.put_byte(b' ');
        put_pixel(to, canvas, p + x);
    }
    to.put_byte(b'\n');
}

fn put_rows(to: &mut Cursor<'_>, canvas: &[u8], stride: usize, width: usize, height: usize)
    requires { (0 < width) × (width ≤ stride) × (height ≤ rows_of (length canvas.now) stride) }
    ensures buffer { to.new.out.ghost_name ≡ to.old.out.ghost_name }
    ensures text { there to.new ≡ put (rows_text canvas.now stride width 0 height) (there to.old) }
{
    for y in 0..height {
        put_row(to, canvas, y * stride, width);
    }
}

// A picture's rows, or nothing where the canvas has no such picture.
fn put_picture(to: &mut Cursor<'_>, canvas: &[u8], stride: usize, width: usize, height: usize)
    ensures buffer { to.new.out.ghost_name ≡ to.old.out.ghost_name }
    ensures text { there to.new ≡ put (picture_rows canvas.now stride width height) (there to.old) }
{
    if canvas::has_picture(canvas.len(), stride, width, height) {
        put_rows(to, canvas, stride, width, height);
    }
}

// Writes the fields of a finished picture at the front of `out`, and answers where they end.
#[tactic(auto, using(crate::proofs::LineLaws::fields_put), unfolding(text::specs::Text::words))]
fn write_fields(
    out: &mut [u8],
    ending: Ending,
    consumed: usize,
    ink: usize,
    report: Report,
) -> usize
    ensures { (result, out.new) ≡ put (fields_text ending consumed ink report) (0, out.old) }
{
    let mut to = Cursor { out, at: 0 };
    put_status(&mut to, ending, consumed);
    put_pair(&mut to, b"size ", report.width, report.height);
    put_pair(&mut to, b"extent ", report.right, report.bottom);
    put_ratio(&mut to, report.ratio);
    put_background(&mut to, report.transparent);
    put_count(&mut to, b"ink ", ink);
    to.at
}

// Writes the fields and the rows of a finished picture at the front of `out`, and answers the text's length there. The rows have a cursor of
// their own, which no function that calls itself is lent, as `put_decimal` is: so its place is kept in a register.
#[tactic(auto, using(crate::proofs::LineLaws::rows_put))]
pub fn write_picture(
    out: &mut [u8],
    ending: Ending,
    consumed: usize,
    ink: usize,
    report: Report,
    stride: usize,
    canvas: &[u8],
) -> usize
    ensures { (result, out.new)
        ≡ put (picture_text ending consumed ink report stride canvas.now) (0, out.old) }
{
    let at = write_fields(out, ending, consumed, ink, report);
    let mut rows = Cursor { out, at };
    put_picture(&mut rows, canvas, stride, report.width, report.height);
    rows.at
}

// Writes a refusal at the front of `out`, and answers the text's length there.
#[tactic(auto, unfolding(crate::specs::Dump::refusal_text, text::specs::Text::words))]
pub fn write_refusal(out: &mut [u8], refusal: Refusal) -> usize
    ensures { (result, out.new) ≡ put (refusal_text refusal) (0, out.old) }
{
    let mut to = Cursor { out, at: 0 };
    put_count(&mut to, b"refused ", frame::number(refusal) as usize);
    to.at
}
