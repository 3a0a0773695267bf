// What is written to standard output.
use frame::Refusal;
use payload::{Ratio, Report};
use std::io;

// A number after some words.
pub(crate) fn number(rt: &impl Print, text: &str, n: usize) -> io::Result<()> {
    print!(rt; "{text}{n}")
}

// A byte as two hex digits.
pub(crate) fn byte(rt: &impl Print, n: u8) -> io::Result<()> {
    print!(rt; "{n:02X}")
}

// A checksum after a space, as eight hex digits.
pub(crate) fn checksum(rt: &impl Print, sum: u32) -> io::Result<()> {
    print!(rt; " {sum:08X}")
}

pub(crate) fn refusal(rt: &impl Print, refused: Refusal) -> io::Result<()> {
    number(rt, "refused ", frame::number(refused) as usize)
}

// A call's name, what it consumed, and its ink.
pub(crate) fn counts(rt: &impl Print, name: &str, consumed: usize, ink: usize) -> io::Result<()> {
    number(rt, name, consumed)?;
    number(rt, " ", ink)
}

// The same for a call that came to an end, and the byte of that end.
pub(crate) fn end(
    rt: &impl Print,
    name: &str,
    consumed: usize,
    ink: usize,
    last: u8,
) -> io::Result<()> {
    counts(rt, name, consumed, ink)?;
    rt.print(" ")?;
    byte(rt, last)
}

// Whether a value was held, after what it belongs to.
pub(crate) fn holding(rt: &impl Print, is_held: bool) -> io::Result<()> {
    rt.print(if is_held { " held" } else { " within" })
}

fn p1(rt: &impl Print, given: Option<u16>) -> io::Result<()> {
    match given {
        None => rt.print(" ratio p1 none"),
        Some(n) => number(rt, " ratio p1 ", n as usize),
    }
}

fn ratio(rt: &impl Print, shown: Ratio) -> io::Result<()> {
    match shown {
        Ratio::Raster(n) => print!(rt; " ratio {n}:1"),
        Ratio::LeftToP1(given) => p1(rt, given),
    }
}

fn background(rt: &impl Print, transparent: bool) -> io::Result<()> {
    let ground = if transparent { "transparent" } else { "opaque" };
    print!(rt; " background {ground}")
}

fn picture(rt: &impl Print, report: Report) -> io::Result<()> {
    number(rt, "picture ", report.width)?;
    number(rt, " ", report.height)?;
    number(rt, " extent ", report.right)?;
    number(rt, " ", report.bottom)?;
    ratio(rt, report.ratio)?;
    background(rt, report.transparent)?;
    number(rt, " defined ", report.defined)?;
    number(rt, " held ", report.held as usize)
}

pub(crate) fn finishing(rt: &impl Print, answer: Result<Report, Refusal>) -> io::Result<()> {
    match answer {
        Ok(report) => picture(rt, report),
        Err(refused) => refusal(rt, refused),
    }
}
