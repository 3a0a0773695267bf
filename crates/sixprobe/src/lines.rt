// Lines of standard input, buffered block by block, so that each is answered as soon as it is there. Neither has a place on the heap.
use std::io::Read;

// How many bytes are read at a time, at most.
const BLOCK: usize = 65_536;

// The most bytes that a line may have.
pub(crate) const LONGEST: usize = 140_000;

// One byte more: a line that fills this is too long.
const LINE_ROOM: usize = LONGEST + 1;

pub(crate) fn line_room() -> [u8; LINE_ROOM] {
    [0; LINE_ROOM]
}

// A block of the input, and the part of it that is still to be read.
#[derive(Clone, Copy)]
pub(crate) struct Block {
    bytes: [u8; BLOCK],
    at: usize,
    end: usize,
}

impl Block {
    pub(crate) fn empty() -> Block {
        Block {
            bytes: [0; BLOCK],
            at: 0,
            end: 0,
        }
    }

    // The next byte, of the next block where this one is read. None is the end of the input, and a failed read counts as that.
    fn next_byte(&mut self, input: &mut impl Read) -> Option<u8> {
        if self.end <= self.at {
            self.at = 0;
            self.end = input.read(&mut self.bytes).unwrap_or(0);
        }
        if self.end <= self.at || BLOCK <= self.at {
            return None;
        }
        let byte = self.bytes[self.at];
        self.at += 1;
        Some(byte)
    }
}

// Reads a line without its line feed, or the front of one that is too long. Answers its length, and whether the input goes on after it.
pub(crate) fn next_line(
    input: &mut impl Read,
    block: &mut Block,
    line: &mut [u8],
) -> (usize, bool) {
    let mut length = 0;
    for _ in 0..u64::MAX {
        match block.next_byte(input) {
            None => break,
            Some(b'\n') => return (length, true),
            Some(byte) => {
                if length < line.len() {
                    line[length] = byte;
                    length += 1;
                }
            }
        }
    }
    (length, false)
}
