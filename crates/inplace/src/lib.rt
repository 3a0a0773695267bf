// A session that stays in one place and is lent to each call, as the Rust's feed takes it. The session is copied out, fed by
// value and stored back; open, finish and abort stay by value, and finish hands no session back.
#![tactic(auto)]

ghost use Rattle.std.specs.Prelude.{◌≡◌};
ghost use Rattle.dcs.specs.Session as dcs;
ghost use Rattle.payload.specs.Session as payload;

use dcs::Ending;
use frame::Refusal;
use payload::{Answer, Fed};

// Reads bytes with the payload session that stands there, and leaves the session after them there.
pub fn feed_payload(
    session: &mut payload::Session,
    canvas: &mut [u8],
    bytes: &[u8],
    allowance: usize,
) -> Result<Answer<u8>, Refusal>
    ensures { (record { answer = result; session = session.new }, canvas.new) ≡ payload.fed_by
        session.old canvas.old bytes.now allowance }
{
    let fed = payload::feed(*session, canvas, bytes, allowance);
    *session = fed.session;
    fed.answer
}

// Kept: a trait of both sessions, with what each feed comes to as its law, would be longer than these two pairs.
// Reads bytes with the DCS session that stands there, and leaves the session after them there.
pub fn feed_dcs(
    session: &mut dcs::Session,
    canvas: &mut [u8],
    bytes: &[u8],
    allowance: usize,
) -> Result<Answer<Ending>, Refusal>
    ensures { (record { answer = result; session = session.new }, canvas.new) ≡ dcs.fed_by
        session.old canvas.old bytes.now allowance }
{
    let read = dcs::feed(*session, canvas, bytes, allowance);
    *session = read.session;
    read.answer
}

// Puts a payload session in a place of its own and lends it to feed_payload. Nothing in its promise is lent but the slices, so
// whoever calls it needs no proof by hand.
pub fn place_and_feed_payload(
    session: payload::Session,
    canvas: &mut [u8],
    bytes: &[u8],
    allowance: usize,
) -> Fed<payload::Session, u8>
    ensures { (result, canvas.new) ≡ payload.fed_by session canvas.old bytes.now allowance }
{
    let mut place = session;
    let answer = feed_payload(&mut place, canvas, bytes, allowance);
    Fed {
        answer,
        session: place,
    }
}

// Puts a DCS session in a place of its own and lends it to feed_dcs.
pub fn place_and_feed_dcs(
    session: dcs::Session,
    canvas: &mut [u8],
    bytes: &[u8],
    allowance: usize,
) -> Fed<dcs::Session, Ending>
    ensures { (result, canvas.new) ≡ dcs.fed_by session canvas.old bytes.now allowance }
{
    let mut place = session;
    let answer = feed_dcs(&mut place, canvas, bytes, allowance);
    Fed {
        answer,
        session: place,
    }
}
