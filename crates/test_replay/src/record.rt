// One record, compared by its kind.
use crate::fields::{
    Kind, byte_at, bytes_of, is_anew, is_with_bytes, kind_of, length_of, piece_length, pieces_of,
};
use crate::trial;
use colours::Palette;

fn signed_at(record: &[u8], at: usize) -> i32 {
    answers::signed(answers::number_at(record, at))
}

// Whether the reader does, or has, what the Rust did or had.
#[derive(Clone, Copy)]
pub(crate) struct Verdict {
    pub kind: Kind,
    pub is_same: bool,
}

// Compares a record, and leaves the owner's palette as it is after it. There is no verdict on a record that is not what it should be;
// one of no known kind is put to the reader as a payload session all the same, so that the palette is as after one.
pub(crate) fn compare(record: &[u8], buffer: &mut [u8], owner: &mut Palette) -> Option<Verdict> {
    let kind = kind_of(record);
    let is_same = match kind {
        Some(Kind::Hls) => is_hls_same(record),
        Some(Kind::Percent) => is_percent_same(record),
        Some(Kind::Registers) => are_registers_same(record),
        Some(Kind::Ratio) => is_ratio_same(record),
        Some(Kind::Payload | Kind::Dcs | Kind::OneShot) | None => {
            compare_session(record, buffer, owner)?
        }
    };
    Some(Verdict {
        kind: kind?,
        is_same,
    })
}

// A session or a reading.
fn compare_session(record: &[u8], buffer: &mut [u8], owner: &mut Palette) -> Option<bool> {
    if !is_session_whole(record) {
        return None;
    }
    if is_anew(record) {
        *owner = Palette::standard();
    }
    let compared = trial::compare(record, buffer, *owner);
    *owner = compared.palette;
    Some(compared.is_same)
}

fn is_hls_same(record: &[u8]) -> bool {
    let (h, l, s) = (
        signed_at(record, 8),
        signed_at(record, 12),
        signed_at(record, 16),
    );
    hls::hls_to_rgb(h, l, s) == [byte_at(record, 5), byte_at(record, 6), byte_at(record, 7)]
}

fn is_percent_same(record: &[u8]) -> bool {
    hls::percent_to_byte(signed_at(record, 8)).byte == byte_at(record, 5)
}

fn are_registers_same(record: &[u8]) -> bool {
    answers::number_at(record, 8) == answers::registers_sum(Palette::standard())
}

fn is_ratio_same(record: &[u8]) -> bool {
    answers::from_p1(answers::number_at(record, 8)) == byte_at(record, 5)
}

// How many bytes the pieces have, by their lengths.
fn pieces_length(record: &[u8]) -> usize {
    let mut sum: usize = 0;
    for piece in 0..pieces_of(record) {
        sum = sum.wrapping_add(piece_length(record, piece));
    }
    sum
}

// What follows the pieces is a whole picture, with the checksum that the record says, where the record has one; else nothing.
fn is_picture_whole(record: &[u8], picture: &[u8]) -> bool {
    if is_with_bytes(record) {
        answers::checksum(picture) == answers::number_at(record, 64)
    } else {
        picture.is_empty()
    }
}

// The lengths of a session's record add up, and a picture in it is the one it speaks of.
fn is_session_whole(record: &[u8]) -> bool {
    let length = length_of(record);
    let picture = bytes_of(record).and_then(|bytes| bytes.get(length..));
    pieces_length(record) == length && picture.is_some_and(|bytes| is_picture_whole(record, bytes))
}
