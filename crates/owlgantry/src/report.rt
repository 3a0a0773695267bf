// What a finish answers, as numbers.
ghost use Rattle.std.specs.Prelude.{◌≡◌};
ghost use Rattle.colours.specs.declared.Palette.{Palette};
ghost use Rattle.colours.specs.Palette.{of_table};
ghost use Rattle.payload.specs.Core.{handed_back};
ghost use Rattle.payload.specs.Meant.{given_meant, ratio_meant, finish_meant};
ghost use Rattle.owlgantry.specs.Reading.{given_kind, given_number, ratio_kind, ratio_number, report_numbers, refusal_number};

use frame::{Refusal, number};
use payload::{Ratio, Report};

// 0, or the refusal's number.
// Kept: its clause speaks of what a finish means to whoever has a palette; by `number_or_zero` it would be as long, and take a law besides.
pub fn refusal_number(answer: Result<Report, Refusal>) -> u64
    ensures { (p : Palette) → result ≡ refusal_number (finish_meant answer p) }
{
    match answer {
        Ok(_) => 0,
        Err(refusal) => number(refusal) as u64,
    }
}

fn given_kind(given: Option<u16>) -> u64
    ensures { result ≡ given_kind (given_meant given) }
{
    match given {
        None => 0,
        Some(_) => 1,
    }
}

fn given_number(given: Option<u16>) -> u64
    ensures { result ≡ given_number (given_meant given) }
{
    match given {
        None => 0,
        Some(n) => n as u64,
    }
}

fn ratio_kind(ratio: Ratio) -> u64
    ensures { result ≡ ratio_kind (ratio_meant ratio) }
{
    match ratio {
        Ratio::Raster(_) => 2,
        Ratio::LeftToP1(given) => given_kind(given),
    }
}

fn ratio_number(ratio: Ratio) -> u64
    ensures { result ≡ ratio_number (ratio_meant ratio) }
{
    match ratio {
        Ratio::Raster(n) => n as u64,
        Ratio::LeftToP1(given) => given_number(given),
    }
}

// The thirteen numbers of a report, with the part's place and length.
pub fn report_numbers(answer: Result<Report, Refusal>, place: usize, size: usize) -> [u64; 13]
    ensures { (p : Palette) → result ≡ report_numbers (finish_meant answer p) place size }
{
    match answer {
        Ok(report) => {
            let ratio = report.ratio;
            [
                report.width as u64,
                report.height as u64,
                report.right as u64,
                report.bottom as u64,
                ratio_kind(ratio),
                ratio_number(ratio),
                report.transparent as u64,
                report.defined as u64,
                report.declared_width as u64,
                report.declared_height as u64,
                report.held,
                place as u64,
                size as u64,
            ]
        }
        Err(_) => [0, 0, 0, 0, 0, 0, 0, 0, 0, 0, 0, place as u64, size as u64],
    }
}

// The owner's registers become the picture's, where there is one.
pub fn hand_over(answer: Result<Report, Refusal>, after: &[u32; 256], palette: &mut [u32; 256])
    ensures { palette.new
        ≡ (handed_back answer (of_table palette.old) (of_table after.now)).palette.colors }
{
    if answer.is_ok() {
        *palette = *after;
    }
}
