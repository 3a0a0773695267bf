// The number reader at its edges.
ghost use Rattle.numbers.specs.Read.{Read};

use crate::say::{say, say_line, say_number};
use numbers::Parameters;
use std::io;

// All bytes of an argument, one by one.
fn read(places: usize, bytes: &[u8]) -> Parameters
    ensures { Read places bytes.now result }
{
    let mut p = Parameters::new(places);
    for byte in bytes {
        p = p.push(*byte);
    }
    p
}

// How many values an argument has, and which.
pub(crate) fn show_values(rt: &impl Print, places: usize, bytes: &[u8]) -> io::Result<()> {
    let p = read(places, bytes).finish();
    let count = p.count();
    say_number(rt, b"", count)?;
    say(rt, b":")?;
    for i in 0..count {
        say_number(rt, b" ", p.value(i) as usize)?;
    }
    say(rt, b"\n")
}

// A repeat's number.
pub(crate) fn show_repeat(rt: &impl Print, bytes: &[u8]) -> io::Result<()> {
    let n = bytes
        .iter()
        .fold(0, |n, byte| numbers::more_repeat(n, *byte));
    say_number(rt, b"", n as usize)?;
    say(rt, b"\n")
}

// The kind of a byte as a letter.
fn kind(byte: u8) -> u8 {
    if numbers::is_skipped(byte) {
        return b's';
    }
    if numbers::is_digit(byte) {
        return b'd';
    }
    if numbers::is_sixel(byte) {
        return b'x';
    }
    if numbers::ends_payload(byte) {
        return b'e';
    }
    b'.'
}

// The kinds of all bytes in one line.
pub(crate) fn show_kinds(rt: &impl Print) -> io::Result<()> {
    let mut line = [0; 256];
    for (byte, letter) in line.iter_mut().enumerate() {
        *letter = kind(byte as u8);
    }
    say_line(rt, &line)
}

fn held(value: usize) -> usize {
    numbers::hold16((value % 4_294_967_296) as u32) as usize
}

// Two header numbers.
pub(crate) fn show_held(rt: &impl Print, a: usize, b: usize) -> io::Result<()> {
    say_number(rt, b"", held(a))?;
    say_number(rt, b" ", held(b))?;
    say(rt, b"\n")
}
