// Orders to a session: opening, feeding, finishing and dropping one, on what is lent of the canvas.
use crate::order::Bounds;
use crate::say;
use crate::state::{Open, State};
use dcs::Ending;
use frame::Refusal;
use payload::{Answer, Settings};
use std::io;

// Says whether the session is open now.
fn opened(
    rt: &impl Print,
    state: &mut State,
    answer: Result<(), Refusal>,
    open: Open,
) -> io::Result<()> {
    match answer {
        Ok(()) => {
            state.open = open;
            rt.print("opened")
        }
        Err(refusal) => {
            state.open = Open::Nothing;
            say::refusal(rt, refusal)
        }
    }
}

pub(crate) fn open_payload(
    rt: &impl Print,
    state: &mut State,
    lent: &mut [u8],
    bounds: Bounds,
    settings: Settings,
) -> io::Result<()> {
    let began = payload::open(bounds.limits, bounds.stride, settings, state.palette, lent);
    opened(rt, state, began.answer, Open::Payload(began.session))
}

pub(crate) fn open_dcs(
    rt: &impl Print,
    state: &mut State,
    length: usize,
    bounds: Bounds,
) -> io::Result<()> {
    let began = dcs::open(bounds.limits, bounds.stride, state.palette, length);
    opened(rt, state, began.answer, Open::Dcs(began.session))
}

// The end of a session of either kind.
#[derive(Clone, Copy)]
enum End {
    Payload(u8),
    Dcs(Ending),
}

fn say_end(rt: &impl Print, consumed: usize, ink: usize, end: End) -> io::Result<()> {
    match end {
        End::Payload(byte) => say::end(rt, "ended ", consumed, ink, byte),
        End::Dcs(Ending::Complete) => say::counts(rt, "complete ", consumed, ink),
        End::Dcs(Ending::Cancelled(byte)) => say::end(rt, "cancelled ", consumed, ink, byte),
        End::Dcs(Ending::Interrupted(byte)) => say::end(rt, "interrupted ", consumed, ink, byte),
    }
}

// Says what a call of a session of either kind came to; `end_of` says of which kind its end is.
fn say_answer<E: Copy, F: Fn(E) -> End + Copy>(
    rt: &impl Print,
    answer: Result<Answer<E>, Refusal>,
    end_of: F,
) -> io::Result<()>
    requires { F.IsAlwaysCallable end_of }
{
    match answer {
        Ok(Answer::More { consumed, ink }) => say::counts(rt, "more ", consumed, ink),
        Ok(Answer::Stopped { consumed, ink }) => say::counts(rt, "stopped ", consumed, ink),
        Ok(Answer::Ended { consumed, ink, end }) => say_end(rt, consumed, ink, end_of(end)),
        Err(refusal) => say::refusal(rt, refusal),
    }
}

pub(crate) fn feed(
    rt: &impl Print,
    state: &mut State,
    lent: &mut [u8],
    bytes: &[u8],
    allowance: usize,
) -> io::Result<()> {
    match state.open {
        Open::Nothing => rt.print("none"),
        Open::Payload(session) => {
            let fed = payload::feed(session, lent, bytes, allowance);
            state.open = Open::Payload(fed.session);
            say_answer(rt, fed.answer, End::Payload)
        }
        Open::Dcs(session) => {
            let fed = dcs::feed(session, lent, bytes, allowance);
            state.open = Open::Dcs(fed.session);
            say_answer(rt, fed.answer, End::Dcs)
        }
    }
}

// Says what a finish came to. The session is gone, and the palette is the owner's.
pub(crate) fn finish(rt: &impl Print, state: &mut State, lent: &mut [u8]) -> io::Result<()> {
    let finished = match state.open {
        Open::Nothing => return rt.print("none"),
        Open::Payload(session) => payload::finish(session, state.palette, lent),
        Open::Dcs(session) => dcs::finish(session, state.palette, lent),
    };
    state.close(finished.palette);
    say::finishing(rt, finished.answer)
}

pub(crate) fn abort(rt: &impl Print, state: &mut State) -> io::Result<()> {
    let palette = match state.open {
        Open::Nothing => return rt.print("none"),
        Open::Payload(session) => payload::abort(session, state.palette),
        Open::Dcs(session) => dcs::abort(session, state.palette),
    };
    state.close(palette);
    rt.print("aborted")
}
