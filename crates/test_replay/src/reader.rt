// A session of either kind, so that both are put through the same calls. After each call it goes through its memory form, so that every
// stored case tries that too.
use crate::calls::{Came, End, Heard, Said};
use crate::fields::{Kind, kind_of, limits_of, settings_of};
use colours::Palette;
use dcs::Ending;
use dcs::kernel::{core_of, with_palette};
use frame::Refusal;
use payload::codes::life_from;
use payload::kernel::{frame_of, life_of, session_of, setup_of};
use payload::memory::{frame_from, setup_from};
use payload::places::LIFE;
use payload::{Answer, Finished};

#[derive(Clone, Copy)]
pub(crate) enum Reader {
    Payload(payload::Session),
    Dcs(dcs::Session),
}

// The session that its numbers and registers say.
fn payload_stored(session: payload::Session) -> Reader {
    let (setup, life, frame) = (setup_of(session), life_of(session), frame_of(session));
    let numbers = payload::memory::numbers_of(setup, life, frame);
    let registers = payload::kernel::palette_of(session).table();
    Reader::Payload(session_of(
        setup_from(&numbers),
        life_from(numbers[LIFE]),
        frame_from(&numbers),
        Palette::of_table(registers),
    ))
}

// The session that its numbers and registers say.
fn dcs_stored(session: dcs::Session) -> Reader {
    let numbers = dcs::memory::numbers_of(core_of(session));
    let registers = dcs::kernel::palette_of(session).table();
    let core = dcs::memory::core_from(&numbers);
    Reader::Dcs(with_palette(core, Palette::of_table(registers)))
}

fn end_of(ending: Ending) -> End {
    match ending {
        Ending::Complete => End::Complete,
        Ending::Cancelled(byte) => End::Cancelled(byte),
        Ending::Interrupted(byte) => End::Interrupted(byte),
    }
}

// What a call of a session of either kind said; `end_of` gives its end the name that both share.
fn said_by<E: Copy, F: Fn(E) -> End + Copy>(answer: Result<Answer<E>, Refusal>, end_of: F) -> Said
    requires { F.IsAlwaysCallable end_of }
{
    let (came, consumed, ink) = match answer? {
        Answer::More { consumed, ink } => (Came::More, consumed, ink),
        Answer::Stopped { consumed, ink } => (Came::Stopped, consumed, ink),
        Answer::Ended { consumed, ink, end } => (Came::Ended(end_of(end)), consumed, ink),
    };
    Ok(Heard {
        came,
        consumed,
        ink,
    })
}

impl Reader {
    // The session of a record, and whether it was opened.
    pub(crate) fn open(
        record: &[u8],
        canvas: &mut [u8],
        stride: usize,
        owner: Palette,
    ) -> (Reader, bool) {
        let limits = limits_of(record);
        if kind_of(record) == Some(Kind::Dcs) {
            let opened = dcs::open(limits, stride, owner, canvas.len());
            return (dcs_stored(opened.session), opened.answer.is_ok());
        }
        let opened = payload::open(limits, stride, settings_of(record), owner, canvas);
        (payload_stored(opened.session), opened.answer.is_ok())
    }

    pub(crate) fn feed(&mut self, canvas: &mut [u8], bytes: &[u8], allowance: usize) -> Said {
        match *self {
            Reader::Payload(session) => {
                let fed = payload::feed(session, canvas, bytes, allowance);
                *self = payload_stored(fed.session);
                said_by(fed.answer, End::Payload)
            }
            Reader::Dcs(session) => {
                let fed = dcs::feed(session, canvas, bytes, allowance);
                *self = dcs_stored(fed.session);
                said_by(fed.answer, end_of)
            }
        }
    }

    pub(crate) fn finish(self, owner: Palette, canvas: &mut [u8]) -> Finished {
        match self {
            Reader::Payload(session) => payload::finish(session, owner, canvas),
            Reader::Dcs(session) => dcs::finish(session, owner, canvas),
        }
    }

    pub(crate) fn abort(self, owner: Palette) -> Palette {
        match self {
            Reader::Payload(session) => payload::abort(session, owner),
            Reader::Dcs(session) => dcs::abort(session, owner),
        }
    }
}
