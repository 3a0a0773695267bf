// The extent after a run. No sixel of it is tested while it is painted, and where the run lies inside the extent none is looked at again.
ghost use Rattle.std.specs.Prelude.{cond, ◌≡◌, ◌+◌, ◌≤◌, ◌<◌, max, eqb, length};
ghost use Rattle.fast.specs.Run.{Sixels, run_extent, inked_length, largest_bits};

use crate::stretch::BLANK;
use frame::{Extent, Frame};
use reference::extent::bottom_after;

// The longest part of a run that is looked through at once.
const PART: usize = 64;

// How many of a run's sixels stand up to its last one with ink.
fn inked_length(bytes: &[u8], from: usize, count: usize) -> usize
    requires { from + count ≤ length bytes.now }
    ensures { result ≡ inked_length bytes.now from count }
{
    match bytes[from..from + count]
        .iter()
        .rposition(|&byte| byte != BLANK)
    {
        Some(last) => last + 1,
        None => 0,
    }
}

// The largest bits of a run. A loop of its own, of which the compiler makes a maximum of many bytes at once.
fn largest_bits(bytes: &[u8], from: usize, count: usize) -> u8
    requires { Sixels bytes.now from (from + count) }
    ensures { result ≡ largest_bits bytes.now from count }
{
    let mut most = BLANK;
    for &byte in &bytes[from..from + count] {
        most = most.max(byte);
    }
    most - BLANK
}

// The extent's right after sixels of which so many stand up to the last one with ink.
fn right_past(right: usize, column: usize, inked: usize) -> usize
    requires { column + inked < 18446744073709551616 }
    ensures { result ≡ cond (eqb inked 0) right (max right (column + inked)) }
{
    if inked == 0 {
        return right;
    }
    right.max(column + inked)
}

// The extent after a run that may pass it. The depth of six bits grows with their number, so that the largest tell it. A long run is taken
// in parts by the function itself: the compiler inlines none that calls itself, and so these loops take no register from the loop over the
// bytes, which seldom needs them.
fn extent_past(
    extent: Extent,
    column: usize,
    row: usize,
    bytes: &[u8],
    from: usize,
    count: usize,
) -> Extent
    requires { Sixels bytes.now from (from + count) × (column + count < 18446744073709551616) × (row + 6 < 18446744073709551616) }
    ensures { result ≡ run_extent extent column row bytes.now from count }
{
    if PART < count {
        let first = extent_past(extent, column, row, bytes, from, PART);
        return extent_past(first, column + PART, row, bytes, from + PART, count - PART);
    }
    let inked = inked_length(bytes, from, count);
    let right = right_past(extent.right, column, inked);
    let bottom = bottom_after(extent.bottom, largest_bits(bytes, from, count), row);
    Extent { right, bottom }
}

// The extent after a run, which is planned as one sixel that is repeated so often. Nearly all but a picture's first and a band's first lie inside it.
// Asks that the bytes are sixels and that they end below what a number can hold.
pub fn extent_after(frame: Frame, bytes: &[u8], from: usize) -> Extent
    requires { Sixels bytes.now from (from + frame.pen.repeat) × (frame.pen.column + frame.pen.repeat < 18446744073709551616)
        × (frame.pen.row + 6 < 18446744073709551616) }
    ensures { result ≡ run_extent frame.extent frame.pen.column frame.pen.row bytes.now from frame.pen.repeat }
{
    let extent = frame.extent;
    let column = frame.pen.column;
    let row = frame.pen.row;
    let count = frame.pen.repeat;
    if row + 6 <= extent.bottom && column + count <= extent.right {
        return extent;
    }
    extent_past(extent, column, row, bytes, from, count)
}
