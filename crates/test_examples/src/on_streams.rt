// DCS streams read in pieces until they end, finished and told. The numbers: limits, stride and a piece's length; to copy a picture,
// then the canvas's length that the opening is told, and how many bytes the copy's buffer has.
use crate::on_sessions::limits;
use crate::order::Numbers;
use crate::parts::first;
use crate::say::{say, say_number};
use canvas::Uncopied;
use colours::Palette;
use dcs::Ending;
use dump::outcome::write_outcome;
use dump::{write_picture, write_refusal};
use frame::Refusal;
use payload::Report;
use pieces::{Counts, Reader, Standing};
use std::io;

// The longest text: six lines of 127 bytes together, and 128 rows of 128 pixels, nine bytes each.
const TEXT: usize = 147_583;

// A copy of 16 x 12 pixels, the largest picture that is copied.
const COPY: usize = 768;

fn text_room() -> [u8; TEXT] {
    [0; TEXT]
}

fn copy_room() -> [u8; COPY] {
    [0; COPY]
}

// Takes the bytes in pieces, or at once where a piece has no bytes; a reader that has come to its end takes no more.
fn take_all(start: Reader, canvas: &mut [u8], bytes: &[u8], piece: usize) -> Reader {
    let size = if piece == 0 { usize::MAX } else { piece };
    let mut reader = start;
    for part in bytes.chunks(size) {
        reader = pieces::take(reader, canvas, part);
    }
    reader
}

fn read(canvas: &mut [u8], n: Numbers, bytes: &[u8], piece: usize, told: usize) -> Reader {
    let [_, _, _, _, stride, ..] = n;
    let reader = pieces::open(limits(n), stride, Palette::standard(), told);
    take_all(reader, canvas, bytes, piece)
}

// What has not ended has no picture, so any end does for it.
fn ending_of(standing: Standing) -> Ending {
    match standing {
        Standing::Ended(ending) => ending,
        _ => Ending::Complete,
    }
}

// Copies a finished picture, and writes the text of the copy.
fn write_copy(
    text: &mut [u8],
    ending: Ending,
    counts: Counts,
    report: Report,
    stride: usize,
    canvas: &[u8],
    copy: &mut [u8],
) -> usize {
    match pieces::copy(report, canvas, stride, copy) {
        Ok(()) => {
            write_picture(
                text,
                ending,
                counts.consumed,
                counts.ink,
                report,
                report.width,
                copy,
            )
        }
        Err(Uncopied::Misfit) => write_refusal(text, Refusal::Canvas),
        Err(Uncopied::Short) => write_refusal(text, Refusal::Buffer),
    }
}

fn write_finish(
    text: &mut [u8],
    finishing: Result<Report, Refusal>,
    ending: Ending,
    counts: Counts,
    stride: usize,
    canvas: &[u8],
    copy: &mut [u8],
) -> usize {
    match finishing {
        Ok(report) => { write_copy(text, ending, counts, report, stride, canvas, copy) }
        Err(refusal) => write_refusal(text, refusal),
    }
}

fn say_calls(rt: &impl Print, words: &[u8], calls: usize) -> io::Result<()> {
    say_number(rt, words, calls)?;
    say(rt, b"\n\n")
}

// What a way of reading came to: the length of its text, and the calls.
#[derive(Clone, Copy)]
struct Came {
    length: usize,
    calls: usize,
}

fn copy_in(canvas: &mut [u8], n: Numbers, bytes: &[u8], text: &mut [u8]) -> Came {
    let [_, _, _, _, stride, piece, told, room] = n;
    let reader = read(canvas, n, bytes, piece, told);
    let ending = ending_of(pieces::standing_of(reader));
    let counts = pieces::counts_of(reader);
    let finished = pieces::finish(reader, Palette::standard(), canvas);
    let mut copy = copy_room();
    let out = &mut copy[..room.min(COPY)];
    let length = write_finish(text, finished.answer, ending, counts, stride, canvas, out);
    Came {
        length,
        calls: counts.calls,
    }
}

// As a caller of `pieces` does: the picture is copied, without gaps, into a second buffer.
pub(crate) fn take_pieces(
    rt: &impl Print,
    canvas: &mut [u8],
    n: Numbers,
    bytes: &[u8],
) -> io::Result<()> {
    let mut text = text_room();
    let came = copy_in(canvas, n, bytes, &mut text);
    say(rt, first(&text, came.length))?;
    say_calls(rt, b"calls ", came.calls)
}

fn dump_in(canvas: &mut [u8], n: Numbers, bytes: &[u8], piece: usize, text: &mut [u8]) -> Came {
    let [_, _, _, _, stride, ..] = n;
    let told = canvas.len();
    let reader = read(canvas, n, bytes, piece, told);
    let counts = pieces::counts_of(reader);
    let length = write_outcome(text, reader, Palette::standard(), stride, canvas);
    Came {
        length,
        calls: counts.calls,
    }
}

fn say_both(rt: &impl Print, text: &[u8], other: &[u8], calls: usize) -> io::Result<()> {
    say(rt, text)?;
    if check::same(text, other) {
        say_calls(rt, b"the same in one piece, calls ", calls)
    } else {
        say_calls(rt, b"DIFFERENT in one piece, calls ", calls)
    }
}

// As `sixdump` does: in pieces, and again in one piece, on the canvas that still has the first picture.
pub(crate) fn dump(rt: &impl Print, canvas: &mut [u8], n: Numbers, bytes: &[u8]) -> io::Result<()> {
    let [_, _, _, _, _, piece, ..] = n;
    let mut text = text_room();
    let mut other = text_room();
    let each = dump_in(canvas, n, bytes, piece, &mut text);
    let whole = dump_in(canvas, n, bytes, bytes.len(), &mut other);
    say_both(
        rt,
        first(&text, each.length),
        first(&other, whole.length),
        whole.calls,
    )
}
