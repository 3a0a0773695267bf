// A line's word, its numbers, and the text after `|`.
use crate::parts::rest;

// The numbers of a line, and 0 where it has none.
pub(crate) type Numbers = [usize; 8];

#[derive(Clone, Copy)]
pub(crate) struct Order<'a> {
    pub(crate) word: &'a [u8],
    pub(crate) numbers: Numbers,
    pub(crate) text: &'a [u8],
}

// A number with one digit more, where that fits.
fn with_digit(value: usize, byte: u8) -> Option<usize> {
    match byte {
        b'0'..=b'9' => value.checked_mul(10)?.checked_add((byte - b'0') as usize),
        _ => None,
    }
}

// No digits are 0.
fn number(field: &[u8]) -> Option<usize> {
    let mut value = 0;
    for byte in field {
        value = with_digit(value, *byte)?;
    }
    Some(value)
}

// A field's word: its last eight letters, without NULs before them. Each word that is known has seven letters or fewer.
fn word_of(field: &[u8]) -> &[u8] {
    let letters = rest(field, field.len().saturating_sub(8));
    match letters.iter().position(|letter| *letter != 0) {
        Some(at) => rest(letters, at),
        None => &[],
    }
}

// A line's front, and its text; none where there is no `|`.
fn split(line: &[u8]) -> (&[u8], &[u8]) {
    match line.iter().position(|byte| *byte == b'|') {
        Some(at) => (&line[..at], &line[at + 1..]),
        None => (line, &[]),
    }
}

// None where a number is bad, and where there are more than eight.
pub(crate) fn read(line: &[u8]) -> Option<Order<'_>> {
    let (front, text) = split(line);
    let mut fields = front.split(|byte| *byte == b' ');
    let word = word_of(fields.next()?);
    let mut numbers = [0; 8];
    for (i, field) in fields.enumerate() {
        match numbers.get_mut(i) {
            Some(place) => *place = number(field)?,
            None if field.is_empty() => {}
            None => return None,
        }
    }
    Some(Order {
        word,
        numbers,
        text,
    })
}
