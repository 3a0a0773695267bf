// One stream fed in two pieces, in place or by value, as a payload and as a DCS sequence: how the two calls came to their ends with the
// bytes consumed and the ink, and the size. The second piece begins with the byte that the first call left. The numbers: limits,
// stride, allowance, the first piece's length, and 1 for in place.
use crate::order::Numbers;
use crate::parts::{first, rest};
use crate::say::{say, say_number};
use colours::Palette;
use dcs::Ending;
use frame::{Limits, Refusal};
use payload::{Answer, Fed, Report};
use std::io;

pub(crate) fn limits(n: Numbers) -> Limits {
    let [width, height, repeats, pixels, ..] = n;
    Limits {
        width,
        height,
        repeats,
        pixels,
    }
}

fn say_counts(rt: &impl Print, words: &[u8], consumed: usize, ink: usize) -> io::Result<usize> {
    say_number(rt, words, consumed)?;
    say_number(rt, b" ", ink)?;
    say(rt, b"; ")?;
    Ok(consumed)
}

fn say_refusal(rt: &impl Print, refusal: Refusal) -> io::Result<usize> {
    say_number(rt, b"refused ", frame::number(refusal) as usize)?;
    say(rt, b"; ")?;
    Ok(0)
}

// Answers the bytes consumed.
fn say_answer<E: Copy>(rt: &impl Print, answer: Result<Answer<E>, Refusal>) -> io::Result<usize> {
    match answer {
        Ok(Answer::More { consumed, ink }) => say_counts(rt, b"more ", consumed, ink),
        Ok(Answer::Stopped { consumed, ink }) => say_counts(rt, b"stopped ", consumed, ink),
        Ok(
            Answer::Ended {
                consumed,
                ink,
                end: _,
            },
        ) => say_counts(rt, b"ended ", consumed, ink),
        Err(refusal) => say_refusal(rt, refusal),
    }
}

fn say_size(rt: &impl Print, width: usize, height: usize) -> io::Result<()> {
    say_number(rt, b"", width)?;
    say_number(rt, b" x ", height)?;
    say(rt, b"\n")
}

fn say_finish(rt: &impl Print, answer: Result<Report, Refusal>) -> io::Result<()> {
    match answer {
        Ok(report) => say_size(rt, report.width, report.height),
        Err(refusal) => {
            say_refusal(rt, refusal)?;
            Ok(())
        }
    }
}

// A session of either kind, so that both are put through the same calls.
#[derive(Clone, Copy)]
enum Session {
    Payload(payload::Session),
    Dcs(dcs::Session),
}

// Kept: it and `feed_dcs` differ in the functions that they call; with both as closures neither would be shorter.
fn feed_payload(
    session: payload::Session,
    canvas: &mut [u8],
    n: Numbers,
    bytes: &[u8],
) -> Fed<payload::Session, u8> {
    let [.., allowance, _, place] = n;
    if place == 1 {
        return inplace::place_and_feed_payload(session, canvas, bytes, allowance);
    }
    payload::feed(session, canvas, bytes, allowance)
}

fn feed_dcs(
    session: dcs::Session,
    canvas: &mut [u8],
    n: Numbers,
    bytes: &[u8],
) -> Fed<dcs::Session, Ending> {
    let [.., allowance, _, place] = n;
    if place == 1 {
        return inplace::place_and_feed_dcs(session, canvas, bytes, allowance);
    }
    dcs::feed(session, canvas, bytes, allowance)
}

impl Session {
    // Says how the call came to its end, and answers the bytes consumed.
    fn feed(
        &mut self,
        rt: &impl Print,
        canvas: &mut [u8],
        n: Numbers,
        bytes: &[u8],
    ) -> io::Result<usize> {
        match *self {
            Session::Payload(session) => {
                let fed = feed_payload(session, canvas, n, bytes);
                *self = Session::Payload(fed.session);
                say_answer(rt, fed.answer)
            }
            Session::Dcs(session) => {
                let fed = feed_dcs(session, canvas, n, bytes);
                *self = Session::Dcs(fed.session);
                say_answer(rt, fed.answer)
            }
        }
    }

    fn finish(self, canvas: &mut [u8]) -> Result<Report, Refusal> {
        match self {
            Session::Payload(session) => {
                payload::finish(session, Palette::standard(), canvas).answer
            }
            Session::Dcs(session) => dcs::finish(session, Palette::standard(), canvas).answer,
        }
    }
}

fn feed_twice(
    rt: &impl Print,
    start: Session,
    canvas: &mut [u8],
    n: Numbers,
    bytes: &[u8],
) -> io::Result<()> {
    let [.., piece, _] = n;
    let mut session = start;
    let consumed = session.feed(rt, canvas, n, first(bytes, piece))?;
    session.feed(rt, canvas, n, rest(bytes, consumed))?;
    say_finish(rt, session.finish(canvas))
}

pub(crate) fn feed_payload_twice(
    rt: &impl Print,
    canvas: &mut [u8],
    n: Numbers,
    bytes: &[u8],
) -> io::Result<()> {
    let [_, _, _, _, stride, ..] = n;
    let settings = payload::no_settings();
    let opened = payload::open(limits(n), stride, settings, Palette::standard(), canvas);
    feed_twice(rt, Session::Payload(opened.session), canvas, n, bytes)
}

pub(crate) fn feed_dcs_twice(
    rt: &impl Print,
    canvas: &mut [u8],
    n: Numbers,
    bytes: &[u8],
) -> io::Result<()> {
    let [_, _, _, _, stride, ..] = n;
    let opened = dcs::open(limits(n), stride, Palette::standard(), canvas.len());
    feed_twice(rt, Session::Dcs(opened.session), canvas, n, bytes)
}
