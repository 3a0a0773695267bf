// The canvas at its edges. What it asks is tested here; a case that it would refuse paints nothing.
use crate::order::Numbers;
use crate::say::{say, say_checksum, say_number};
use canvas::{Uncopied, rows};
use std::io;

const INK: [u8; 4] = [201, 202, 203, 204];

const BACK: [u8; 4] = [101, 102, 103, 104];

// The buffer that a picture is copied to.
const ROOM: usize = 128;

// Byte i gets i % 251.
pub(crate) fn fresh(bytes: &mut [u8]) {
    for (i, byte) in bytes.iter_mut().enumerate() {
        *byte = (i % 251) as u8;
    }
}

pub(crate) fn first_pixel(canvas: &mut [u8]) {
    if 4 <= canvas.len() {
        canvas::first_pixel(canvas, BACK);
    }
}

pub(crate) fn span(canvas: &mut [u8], from: usize, to: usize) {
    if from <= to && to <= canvas.len() / 4 {
        canvas::fill_span(canvas, from, to, INK);
    }
}

// The numbers: stride, column, row, repeat, bits.
pub(crate) fn sixel(canvas: &mut [u8], n: Numbers) {
    let [stride, column, row, repeat, bits, ..] = n;
    let rows = rows(canvas.len(), stride);
    if stride < column || stride - column < repeat || rows < 6 || rows - 6 < row {
        return;
    }
    let bits = (bits % 256) as u8;
    canvas::paint_sixel(canvas, stride, column, row, repeat, bits, INK);
}

// The numbers: stride, width and height, new width and height.
pub(crate) fn grow(canvas: &mut [u8], n: Numbers) {
    let [stride, width, height, new_width, new_height, ..] = n;
    if new_width < width || stride < new_width || new_height < height {
        return;
    }
    if new_height <= rows(canvas.len(), stride) {
        canvas::grow(canvas, stride, width, height, new_width, new_height, BACK);
    }
}

// The number of a copy's refusal, or 0.
fn number_of(answer: Result<(), Uncopied>) -> usize {
    match answer {
        Ok(()) => 0,
        Err(Uncopied::Misfit) => 12,
        Err(Uncopied::Short) => 14,
    }
}

// The numbers: stride, width, height, and how many bytes of a buffer it is copied to.
pub(crate) fn copy(rt: &impl Print, canvas: &[u8], n: Numbers) -> io::Result<()> {
    let [stride, width, height, length, ..] = n;
    let mut out = [0; ROOM];
    fresh(&mut out);
    let lent = &mut out[..length.min(ROOM)];
    let answer = canvas::copy_picture(canvas, stride, width, height, lent);
    say_number(rt, b"", number_of(answer))?;
    say(rt, b" ")?;
    say_checksum(rt, &out)
}
