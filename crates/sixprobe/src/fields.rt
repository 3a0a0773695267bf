// The fields of a line, exactly one space apart: words, numbers, signed numbers, parameters and bytes.
ghost use Rattle.std.specs.Prelude.{◌<◌, IfSome};

use std::str;
use std::str::FromStr;

// How many fields a line has.
pub(crate) fn count(line: &[u8]) -> usize {
    line.split(|byte| *byte == b' ').count()
}

// Field `n` of a line, from 0 on.
pub(crate) fn field(line: &[u8], n: usize) -> Option<&[u8]> {
    line.split(|byte| *byte == b' ').nth(n)
}

// What std reads in a field, but for a `+`.
fn parsed<T: FromStr>(field: &[u8]) -> Option<T>
where
    T::Err: Drop,
{
    if field.starts_with(b"+") {
        return None;
    }
    str::from_utf8(field).ok()?.parse().ok()
}

pub(crate) fn number_at(line: &[u8], n: usize) -> Option<usize> {
    parsed(field(line, n)?)
}

// The numbers after the word.
pub(crate) fn numbers<const N: usize>(line: &[u8]) -> Option<[usize; N]> {
    let mut numbers = [0; N];
    for (i, number) in numbers.iter_mut().enumerate() {
        *number = number_at(line, i + 1)?;
    }
    Some(numbers)
}

// A signed number of 32 bits.
pub(crate) fn signed_at(line: &[u8], n: usize) -> Option<i32> {
    parsed(field(line, n)?)
}

// P1 or P2: a number of 16 bits, or `-` for none.
pub(crate) fn parameter_at(line: &[u8], n: usize) -> Option<Option<u16>> {
    match field(line, n)? {
        b"-" => Some(None),
        digits => Some(Some(parsed(digits)?)),
    }
}

// What an upper-case hex digit counts.
fn hex_digit(byte: u8) -> Option<u8>
    ensures { IfSome result (λ digit. digit < 16) }
{
    match byte {
        b'0'..=b'9' => Some(byte - b'0'),
        b'A'..=b'F' => Some(byte - b'A' + 10),
        _ => None,
    }
}

// The bytes that pairs of hex digits stand for, at the front of `out`, where the pairs are whole and have room.
fn pairs<'a>(digits: &[u8], out: &'a mut [u8]) -> Option<&'a [u8]> {
    let (pairs, odd) = digits.as_chunks::<2>();
    if !odd.is_empty() {
        return None;
    }
    let bytes = out.get_mut(..pairs.len())?;
    for (byte, [high, low]) in bytes.iter_mut().zip(pairs) {
        *byte = 16 * hex_digit(*high)? + hex_digit(*low)?;
    }
    Some(bytes)
}

// Bytes in pairs, or `.` for none.
pub(crate) fn bytes_at<'a>(line: &[u8], n: usize, out: &'a mut [u8]) -> Option<&'a [u8]> {
    match field(line, n)? {
        b"" => None,
        b"." => Some(&[]),
        digits => pairs(digits, out),
    }
}
