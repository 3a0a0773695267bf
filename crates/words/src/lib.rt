// What is told of a refusal, and the line of English that says it, written into a lent buffer at a cursor. Where the buffer is full, the
// line is truncated.
#![tactic(auto)]

pub mod memory;

ghost use Rattle.std.specs.Prelude.{◌≡◌};
ghost use Rattle.text.specs.Text.{put};
ghost use Rattle.text.specs.Stand.{there};
ghost use Rattle.words.specs.Words.{place_text, amount_text, needed_text, limit_text, plain_sentence, sentence, refusal_text};

use frame::Refusal;
use text::Cursor;

// What a refusal ran short of.
#[derive(Clone, Copy)]
pub enum Thing {
    Repeats,
    Columns,
    Rows,
    Pixels,
}

// How much of it was needed (`more`: more than that), and how much is allowed or there.
#[derive(Clone, Copy)]
pub struct Shortage {
    pub needed: u64,
    pub allowed: u64,
    pub thing: Thing,
    pub more: bool,
}

// What is told of a refusal: where it is told, the offset of the refused byte in what was given, and what was needed.
#[derive(Clone, Copy)]
pub struct Telling {
    pub refusal: Refusal,
    pub place: Option<usize>,
    pub need: Option<Shortage>,
}

#[tactic(auto, using(text::proofs::Laws::put_then), unfolding(crate::specs::Words::place_text, text::specs::Text::put, text::specs::Text::words))]
fn put_place(to: &mut Cursor<'_>, place: Option<usize>)
    ensures buffer { to.new.out.ghost_name ≡ to.old.out.ghost_name }
    ensures text { there to.new ≡ put (place_text place) (there to.old) }
{
    if let Some(offset) = place {
        to.put_words(b" at byte ");
        to.put_decimal(offset as u64);
    }
}

fn put_amount(to: &mut Cursor<'_>, n: u64, more: bool)
    ensures buffer { to.new.out.ghost_name ≡ to.old.out.ghost_name }
    ensures text { there to.new ≡ put (amount_text n more) (there to.old) }
{
    if more {
        to.put_words(b"more than ");
    }
    to.put_decimal(n);
}

fn put_needed(to: &mut Cursor<'_>, thing: Thing, n: u64, more: bool)
    ensures buffer { to.new.out.ghost_name ≡ to.old.out.ghost_name }
    ensures text { there to.new ≡ put (needed_text thing n more) (there to.old) }
{
    match thing {
        Thing::Repeats => {
            to.put_words(b"a repeat of ");
            put_amount(to, n, more);
        }
        Thing::Columns => {
            put_amount(to, n, more);
            to.put_words(b" columns are needed");
        }
        Thing::Rows => {
            put_amount(to, n, more);
            to.put_words(b" rows are needed");
        }
        Thing::Pixels => {
            put_amount(to, n, more);
            to.put_words(b" pixels are needed");
        }
    }
}

#[tactic(auto, using(crate::proofs::WordLaws::canvas_has, crate::proofs::WordLaws::allowed), unfolding(text::specs::Text::words))]
fn put_limit(to: &mut Cursor<'_>, refusal: Refusal, n: u64)
    ensures buffer { to.new.out.ghost_name ≡ to.old.out.ghost_name }
    ensures text { there to.new ≡ put (limit_text refusal n) (there to.old) }
{
    match refusal {
        Refusal::Room => {
            to.put_words(b", the canvas has ");
            to.put_decimal(n);
        }
        _ => {
            to.put_words(b", ");
            to.put_decimal(n);
            to.put_words(b" allowed");
        }
    }
}

// The sentence of a refusal of which no need is told.
#[tactic(auto, unfolding(crate::specs::Words::plain_sentence, text::specs::Text::words))]
fn put_plain(to: &mut Cursor<'_>, refusal: Refusal)
    ensures buffer { to.new.out.ghost_name ≡ to.old.out.ghost_name }
    ensures text { there to.new ≡ put (plain_sentence refusal) (there to.old) }
{
    match refusal {
        Refusal::Introducer => to.put_words(b"no DCS introducer"),
        Refusal::HeaderEnded => to.put_words(b"the header is cut off before its q"),
        Refusal::HeaderByte => to.put_words(b"a byte that no header has"),
        Refusal::Repeat => to.put_words(b"a repeat above the limit"),
        Refusal::Size => to.put_words(b"a width or height above the limit"),
        Refusal::Pixels => to.put_words(b"more pixels than the limit"),
        Refusal::Room => to.put_words(b"a size above the canvas"),
        Refusal::Unfinished => to.put_words(b"the sequence has not come to its end"),
        Refusal::Failed => to.put_words(b"the session was refused before, or there is none"),
        Refusal::FinalSize => to.put_words(b"retired, nothing gives this number"),
        Refusal::Opening => to.put_words(
            b"a limit or the stride is out of range, or the canvas has no whole row",
        ),
        Refusal::Canvas => to.put_words(b"not the canvas of the opening, or no such picture on it"),
        Refusal::Allowance => to.put_words(b"the allowance is below six times the width limit"),
        Refusal::Buffer => to.put_words(b"the buffer is shorter than the picture"),
    }
}

#[tactic(auto, using(text::proofs::Laws::put_then), unfolding(crate::specs::Words::sentence))]
fn put_sentence(to: &mut Cursor<'_>, refusal: Refusal, need: Option<Shortage>)
    ensures buffer { to.new.out.ghost_name ≡ to.old.out.ghost_name }
    ensures text { there to.new ≡ put (sentence refusal need) (there to.old) }
{
    match need {
        None => put_plain(to, refusal),
        Some(short) => {
            put_needed(to, short.thing, short.needed, short.more);
            put_limit(to, refusal, short.allowed);
        }
    }
}

// Writes the line of a refusal, without a newline, and answers where the cursor stands then (rule 5.11).
// Kept: docs/PROMISES.md names it with its buffer and place.
#[tactic(auto, using(crate::proofs::WordLaws::refusal_put), unfolding(text::specs::Text::words))]
pub fn put_refusal(out: &mut [u8], at: usize, telling: Telling) -> usize
    ensures { (result, out.new) ≡ put (refusal_text telling) (at, out.old) }
{
    let Telling {
        refusal,
        place,
        need,
    } = telling;
    let mut to = Cursor { out, at };
    to.put_words(b"refused ");
    to.put_decimal(frame::number(refusal) as u64);
    put_place(&mut to, place);
    to.put_words(b": ");
    put_sentence(&mut to, refusal, need);
    to.at
}
