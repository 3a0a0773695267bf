// A record's fields. A place past its end holds 0.
use crate::report::Picture;
use frame::Limits;
use payload::Settings;

// What a record has: a session or a reading, a colour, the standard registers, or a ratio.
#[derive(Clone, Copy, PartialEq, Eq)]
pub(crate) enum Kind {
    Payload,
    Dcs,
    OneShot,
    Hls,
    Percent,
    Registers,
    Ratio,
}

// The list's numbers for the kinds.
pub(crate) fn kind_of(record: &[u8]) -> Option<Kind> {
    match byte_at(record, 4) {
        1 => Some(Kind::Payload),
        2 => Some(Kind::Dcs),
        3 => Some(Kind::OneShot),
        4 => Some(Kind::Hls),
        5 => Some(Kind::Percent),
        6 => Some(Kind::Registers),
        7 => Some(Kind::Ratio),
        _ => None,
    }
}

pub(crate) fn byte_at(record: &[u8], at: usize) -> u8 {
    record.get(at).copied().unwrap_or(0)
}

// The registers are the standard ones again first.
pub(crate) fn is_anew(record: &[u8]) -> bool {
    byte_at(record, 5) & 1 != 0
}

// The session is dropped and not finished.
pub(crate) fn is_dropped(record: &[u8]) -> bool {
    byte_at(record, 5) & 2 != 0
}

// After the pieces, the picture's bytes are in the record.
pub(crate) fn is_with_bytes(record: &[u8]) -> bool {
    byte_at(record, 5) & 4 != 0
}

pub(crate) fn limits_of(record: &[u8]) -> Limits {
    Limits {
        width: answers::number_at(record, 12) as usize,
        height: answers::number_at(record, 16) as usize,
        repeats: answers::number_at(record, 20) as usize,
        pixels: answers::number_at(record, 24) as usize,
    }
}

// A parameter as the list has it: 65,536 is none.
fn given(stored: u32) -> Option<u16> {
    match u16::try_from(stored) {
        Ok(n) => Some(n),
        Err(_) => None,
    }
}

pub(crate) fn settings_of(record: &[u8]) -> Settings {
    Settings {
        p1: given(answers::number_at(record, 28)),
        p2: given(answers::number_at(record, 32)),
    }
}

pub(crate) fn width_of(record: &[u8]) -> usize {
    answers::number_at(record, 48) as usize
}

pub(crate) fn height_of(record: &[u8]) -> usize {
    answers::number_at(record, 52) as usize
}

// At 56 a record has the Rust's reach, which is not the extent of rule 4.4.
pub(crate) fn picture_of(record: &[u8]) -> Option<Picture> {
    let ratio = byte_at(record, 10);
    if ratio == 0 {
        return None;
    }
    Some(Picture {
        width: width_of(record),
        height: height_of(record),
        ratio,
        background: byte_at(record, 11),
    })
}

pub(crate) fn pieces_of(record: &[u8]) -> u32 {
    answers::number_at(record, 72)
}

// How many bytes a piece has.
pub(crate) fn piece_length(record: &[u8], piece: u32) -> usize {
    answers::number_at(record, 80 + 4 * (piece as usize)) as usize
}

// How many bytes all pieces have.
pub(crate) fn length_of(record: &[u8]) -> usize {
    answers::number_at(record, 76) as usize
}

// The pieces' bytes, after their lengths, and what follows them; none where the record ends among the lengths.
pub(crate) fn bytes_of(record: &[u8]) -> Option<&[u8]> {
    record.get(80 + 4 * (pieces_of(record) as usize)..)
}

// The bytes of a record from a place on.
pub(crate) fn rest(record: &[u8], at: usize) -> &[u8] {
    record.get(at..).unwrap_or(&[])
}

// The first bytes, `length` of them or as many as there are.
pub(crate) fn first(bytes: &[u8], length: usize) -> &[u8] {
    bytes.get(..length).unwrap_or(bytes)
}
