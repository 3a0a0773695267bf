// A report in the list's numbers.
use frame::Refusal;
use payload::{Ratio, Report};

#[derive(Clone, Copy, PartialEq, Eq)]
pub(crate) struct Picture {
    pub width: usize,
    pub height: usize,
    pub ratio: u8,
    pub background: u8,
}

fn stored(p: Option<u16>) -> u32 {
    p.map_or(65_536, u32::from)
}

// Vertical to 1, as the Rust has it where it is left to P1.
fn vertical(ratio: Ratio) -> u8 {
    match ratio {
        Ratio::Raster(n) => n,
        Ratio::LeftToP1(p1) => answers::from_p1(stored(p1)),
    }
}

fn picture_of(report: Report) -> Picture {
    Picture {
        width: report.width,
        height: report.height,
        ratio: vertical(report.ratio),
        background: 1 + u8::from(report.transparent),
    }
}

// What a finish or a reading came to.
pub(crate) fn close(answer: Result<Report, Refusal>) -> Result<Picture, Refusal> {
    Ok(picture_of(answer?))
}
