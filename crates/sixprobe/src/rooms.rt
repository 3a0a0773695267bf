// Buffers: a canvas's and a copy's, that of a line's bytes, and the part of one that is lent.
// The most bytes that a canvas and a copy have.
pub(crate) const ROOM: usize = 1_048_576;

pub(crate) fn room() -> [u8; ROOM] {
    [0; ROOM]
}

// The most bytes that a line stands for.
const BYTES: usize = 65_536;

pub(crate) fn bytes_room() -> [u8; BYTES] {
    [0; BYTES]
}

// Byte `i` gets `i % period`.
pub(crate) fn fill(buffer: &mut [u8], period: u8) {
    let most = period.max(1) as usize;
    for (i, byte) in buffer.iter_mut().enumerate() {
        *byte = (i % most) as u8;
    }
}

// The first bytes of a buffer.
pub(crate) fn first(buffer: &[u8], length: usize) -> &[u8] {
    buffer.get(..length).unwrap_or(buffer)
}
