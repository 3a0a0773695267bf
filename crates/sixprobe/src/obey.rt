// Carries an order out and says what it came to, but for the canvas's checksum.
use crate::order::{Ask, Bounds, Order};
use crate::registers::Change;
use crate::rooms::fill;
use crate::sessions::{abort, feed, finish, open_dcs, open_payload};
use crate::state::State;
use crate::{questions, registers, rooms, say};
use bins::Shape;
use canvas::Uncopied;
use frame::Refusal;
use std::io;

fn new_canvas(
    rt: &impl Print,
    state: &mut State,
    canvas: &mut [u8],
    length: usize,
) -> io::Result<()> {
    let end = length.min(canvas.len());
    fill(&mut canvas[..end], 251);
    state.length = length;
    state.lent = length;
    say::number(rt, "canvas ", length)
}

fn lend(rt: &impl Print, state: &mut State, lent: usize) -> io::Result<()> {
    state.lent = lent;
    say::number(rt, "lend ", lent)
}

fn one_shot(
    rt: &impl Print,
    state: &mut State,
    lent: &mut [u8],
    bounds: Bounds,
    bytes: &[u8],
) -> io::Result<()> {
    if state.is_busy() {
        return rt.print("busy");
    }
    let Bounds { limits, stride } = bounds;
    let part = oneshot::payload_part(limits, stride, lent.len(), bytes).len();
    let finished = oneshot::read(limits, stride, state.palette, lent, bytes);
    state.palette = finished.palette;
    say::finishing(rt, finished.answer)?;
    say::number(rt, " part ", part)
}

fn say_copied(rt: &impl Print, answer: Result<(), Uncopied>) -> io::Result<()> {
    match answer {
        Ok(()) => rt.print("copied"),
        Err(Uncopied::Misfit) => say::refusal(rt, Refusal::Canvas),
        Err(Uncopied::Short) => say::refusal(rt, Refusal::Buffer),
    }
}

// By itself, so that a run without a copy has no room for one.
#[inline(never)]
fn copy(rt: &impl Print, lent: &[u8], shape: Shape, length: usize) -> io::Result<()> {
    let mut buffer = rooms::room();
    let out = &mut buffer[..length.min(rooms::ROOM)];
    fill(out, 241);
    let answer = canvas::copy_picture(lent, shape.stride, shape.width, shape.height, out);
    say_copied(rt, answer)?;
    say::checksum(rt, answers::checksum(out))
}

// Of the owner's palette, which is lent out while a session is open.
fn change(rt: &impl Print, state: &mut State, wish: Change) -> io::Result<()> {
    if state.is_busy() {
        return rt.print("busy");
    }
    registers::apply(rt, &mut state.palette, wish)
}

fn obey_session(
    rt: &impl Print,
    wish: Ask<'_>,
    state: &mut State,
    lent: &mut [u8],
) -> io::Result<()> {
    match wish {
        Ask::Payload { bounds, settings } => open_payload(rt, state, lent, bounds, settings),
        Ask::Dcs(bounds) => open_dcs(rt, state, lent.len(), bounds),
        Ask::Feed { allowance, bytes } => feed(rt, state, lent, bytes, allowance),
        Ask::Finish => finish(rt, state, lent),
        Ask::Abort => abort(rt, state),
    }
}

pub(crate) fn obey(
    rt: &impl Print,
    order: Order<'_>,
    state: &mut State,
    canvas: &mut [u8],
) -> io::Result<()> {
    let end = state.lent.min(canvas.len());
    match order {
        Order::Canvas(length) => new_canvas(rt, state, canvas, length),
        Order::Lend(length) => lend(rt, state, length),
        Order::Session(wish) => obey_session(rt, wish, state, &mut canvas[..end]),
        Order::OneShot { bounds, bytes } => {
            one_shot(rt, state, &mut canvas[..end], bounds, bytes)
        }
        Order::Copy { shape, length } => copy(rt, &canvas[..end], shape, length),
        Order::Bench(question) => questions::answer(rt, question, &canvas[..end]),
        Order::Palette => registers::palette(rt, state.palette),
        Order::Marks => registers::marks(rt, state.palette),
        Order::Register(index) => registers::register(rt, state.palette, index),
        Order::Percent(value) => registers::percent(rt, value),
        Order::Change(wish) => change(rt, state, wish),
    }
}
