// A session of the list put to the reader: its pieces one by one, what stays unread again after each stop.
use crate::calls::{Came, Count, Heard, is_fair};
use crate::fields::{bytes_of, first, is_dropped, piece_length, pieces_of, rest};
use crate::reader::Reader;
use crate::report::{Picture, close};
use colours::Palette;
use frame::Refusal;

// A session and what its calls came to.
#[derive(Clone, Copy)]
struct Calls {
    reader: Reader,
    count: Count,
}

impl Calls {
    // Gives what stays unread after a stop.
    fn call<'a>(
        &mut self,
        canvas: &mut [u8],
        bytes: &'a [u8],
        allowance: usize,
    ) -> Option<&'a [u8]> {
        let said = self.reader.feed(canvas, bytes, allowance);
        let fair = is_fair(said, self.count.end, bytes, allowance);
        self.count.add(said, fair);
        match said {
            Ok(
                Heard {
                    came: Came::Stopped,
                    consumed,
                    ..
                },
            ) => Some(rest(bytes, consumed)),
            _ => None,
        }
    }

    // Each stop comes after a byte, so that one call more than the piece has bytes is enough.
    fn feed_piece(&mut self, canvas: &mut [u8], piece: &[u8], allowance: usize) {
        let before = self.count.consumed;
        let mut unread = self.call(canvas, piece, allowance);
        for _ in 0..piece.len() {
            let Some(bytes) = unread else {
                break;
            };
            unread = self.call(canvas, bytes, allowance);
        }
        self.count.add_piece(before);
    }

    fn feed_pieces(&mut self, record: &[u8], canvas: &mut [u8], allowance: usize) {
        let mut unread = bytes_of(record).unwrap_or(&[]);
        for number in 0..pieces_of(record) {
            let piece = first(unread, piece_length(record, number));
            self.feed_piece(canvas, piece, allowance);
            if self.count.refusal.is_some() {
                return;
            }
            unread = rest(unread, piece.len());
        }
    }
}

// What a whole session or a reading came to, and the owner's palette after it.
#[derive(Clone, Copy)]
pub(crate) struct Ran {
    pub count: Count,
    pub refusal: Option<Refusal>,
    pub is_finished: bool,
    pub picture: Option<Picture>,
    pub palette: Palette,
}

// A session that a feed failed is finished too: that is refused by 9.
fn finish(calls: Calls, owner: Palette, canvas: &mut [u8]) -> Ran {
    let mut count = calls.count;
    let finished = calls.reader.finish(owner, canvas);
    let closed = close(finished.answer);
    if count.refusal.is_some() {
        count.is_fair = count.is_fair && matches!(closed, Err(Refusal::Failed));
    }
    Ran {
        count,
        refusal: count.refusal.or(closed.err()),
        is_finished: count.refusal.is_none(),
        picture: closed.ok(),
        palette: finished.palette,
    }
}

fn abort(calls: Calls, owner: Palette) -> Ran {
    let count = calls.count;
    Ran {
        count,
        refusal: count.refusal,
        is_finished: false,
        picture: None,
        palette: calls.reader.abort(owner),
    }
}

// The record's session on a canvas of `stride` pixels a row, finished, or dropped where the record says so.
pub(crate) fn run(
    record: &[u8],
    canvas: &mut [u8],
    stride: usize,
    allowance: usize,
    owner: Palette,
) -> Ran {
    let (reader, is_ready) = Reader::open(record, canvas, stride, owner);
    let mut calls = Calls {
        reader,
        count: Count::new(is_ready),
    };
    calls.feed_pieces(record, canvas, allowance);
    if is_dropped(record) {
        return abort(calls, owner);
    }
    finish(calls, owner, canvas)
}
