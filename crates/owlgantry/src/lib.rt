// The reader for C and Rust, over the C ABI: functions under unmangled names, over numbers, slices and arrays alone. Each slice is
// passed as a pointer and a length, each array as a pointer.
#![tactic(auto)]

mod answers;
pub mod dcs_session;
pub mod explaining;
pub mod moves;
pub mod payload_session;
mod report;

ghost use Rattle.std.specs.Prelude.{◌≡◌};
ghost use Rattle.colours.specs.Palette.{of_table, standard};
ghost use Rattle.canvas.specs.Copy.{number_of, copied};
ghost use Rattle.canvas.specs.Picture.{area_of};
ghost use Rattle.owlgantry.specs.Reading.{sixel_read};

use canvas::{Uncopied, copy_picture};
use colours::Palette;
use frame::Limits;
use oneshot::read_onto;
use report::{refusal_number, report_numbers};

// Reads all at once, with a palette that becomes the picture's where there is one. Answers 0 or the refusal's number, and
// reports thirteen numbers: width, height, right, bottom; the ratio's kind and number (0: left to P1, which is missing; 1: left
// to P1's number; 2: the raster's, number : 1); 1 for a transparent background; how many registers the picture defined; the
// declared width and height, each 0 where there is none; how many definitions had a held value; and the place and the length of the
// payload among the bytes. On a refusal the first eleven are 0.
pub fn owlgantry_raw_read(
    width: usize,
    height: usize,
    repeats: usize,
    pixels: usize,
    stride: usize,
    canvas: &mut [u8],
    bytes: &[u8],
    palette: &mut [u32; 256],
    report: &mut [u64; 13],
) -> u64
    ensures { (result, canvas.new, of_table palette.new, report.new)
        ≡ sixel_read (record { width = width; height = height; repeats = repeats; pixels = pixels }) stride
        canvas.old bytes.now (of_table palette.old) }
{
    let limits = Limits {
        width,
        height,
        repeats,
        pixels,
    };
    let reading = read_onto(limits, stride, palette, canvas, bytes);
    let answer = reading.answer;
    *report = report_numbers(answer, bytes.len() - reading.part, reading.part);
    refusal_number(answer)
}

// The number of a copy's answer: 0, 12 or 14.
#[tactic(auto, unfolding(canvas::specs::Copy::number_of))]
fn copy_number(answer: Result<(), Uncopied>) -> u64
    ensures { result ≡ number_of answer }
{
    match answer {
        Ok(()) => 0,
        Err(Uncopied::Misfit) => 12,
        Err(Uncopied::Short) => 14,
    }
}

// Copies a picture's rows without gaps to the front of `out`. Answers 0, 12 or 14.
pub fn owlgantry_raw_copy(
    canvas: &[u8],
    stride: usize,
    width: usize,
    height: usize,
    out: &mut [u8],
) -> u64
    ensures { (result, out.new) ≡ copied stride (area_of width height) canvas.now out.old }
{
    copy_number(copy_picture(canvas, stride, width, height, out))
}

// The standard palette's 256 registers, each a packed colour without a mark.
pub fn owlgantry_raw_standard_palette(out: &mut [u32; 256])
    ensures { of_table out.new ≡ standard }
{
    let registers = Palette::standard();
    *out = registers.table();
}
