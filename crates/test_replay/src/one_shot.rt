// A one-shot reading of the list put to the reader: all its bytes at once.
use crate::calls::Count;
use crate::fields::{bytes_of, first, length_of, limits_of};
use crate::report::close;
use crate::session::Ran;
use colours::Palette;

fn read(record: &[u8], canvas: &mut [u8], stride: usize, owner: Palette, bytes: &[u8]) -> Ran {
    let limits = limits_of(record);
    let part = oneshot::payload_part(limits, stride, canvas.len(), bytes);
    // The part is the input's end, as long as the record says.
    let is_part = part.len() == answers::number_at(record, 44) as usize && bytes.ends_with(part);
    let finished = oneshot::read(limits, stride, owner, canvas, bytes);
    let closed = close(finished.answer);
    Ran {
        count: Count::new(is_part),
        refusal: closed.err(),
        is_finished: false,
        picture: closed.ok(),
        palette: finished.palette,
    }
}

// The record's reading on a canvas of `stride` pixels a row.
pub(crate) fn run(record: &[u8], canvas: &mut [u8], stride: usize, owner: Palette) -> Ran {
    let bytes = first(bytes_of(record).unwrap_or(&[]), length_of(record));
    read(record, canvas, stride, owner, bytes)
}
