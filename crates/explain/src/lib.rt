// What is told of a refusal: its number, its place, and what was needed. Each function answers for a call what that call is refused with. It reads
// the bytes again without painting, and changes nothing that is lent.
#![tactic(auto)]

pub mod dcs_session;
mod dry;
mod need;
pub mod payload_session;
pub mod whole;

ghost use Rattle.std.specs.Prelude.{◌≡◌, ◌+◌, ◌≤◌, true, length, drop};
ghost use Rattle.colours.specs.Palette.{of_table};
ghost use Rattle.explain.specs.Dry.{dry_from};
ghost use Rattle.explain.specs.Explained.{placeless_for, told_for, explained_in, part_explained, pending_explained};

use dry::read_on;
use frame::{Frame, Ground, Outcome, Refusal};
use need::need_of;
use words::{Shortage, Telling};

fn placeless(refusal: Refusal) -> Result<(), Telling>
    ensures { result ≡ placeless_for refusal }
{
    Err(Telling {
        refusal,
        place: None,
        need: None,
    })
}

fn told_at(at: usize, refusal: Refusal, need: Option<Shortage>) -> Result<(), Telling>
    ensures { result ≡ told_for at refusal need }
{
    Err(Telling {
        refusal,
        place: Some(at),
        need,
    })
}

// Where reading came to, with the place of the byte that it left unread.
fn explain_outcome(outcome: Outcome, frame: Frame, ground: Ground, at: usize) -> Result<(), Telling>
    ensures { result ≡ explained_in outcome frame ground at }
{
    match outcome {
        Outcome::Refused(refusal) => told_at(at, refusal, need_of(frame, ground)),
        _ => Ok(()),
    }
}

// A payload's bytes from a place on.
fn explain_part(
    frame: Frame,
    ground: Ground,
    registers: &[u32; 256],
    bytes: &[u8],
    from: usize,
    allowance: usize,
) -> Result<(), Telling>
    requires { from ≤ length bytes.now }
    ensures { result ≡ part_explained (dry_from true ground (drop from bytes.now) 0 allowance frame (of_table registers.now))
        ground from }
{
    let part = &bytes[from..];
    let mut colors = *registers;
    let led = read_on(frame, ground, &mut colors, part, true, allowance);
    explain_outcome(led.outcome, led.frame, ground, from + led.consumed)
}

// A byte that ends a payload.
const ENDING: u8 = 0x1B;

// The pending command at a finish, with the place of the end: a byte that ends the payload ends it.
fn explain_pending(
    frame: Frame,
    ground: Ground,
    registers: &[u32; 256],
    at: usize,
) -> Result<(), Telling>
    ensures { result ≡ pending_explained frame ground (of_table registers.now) at }
{
    let mut colors = *registers;
    let led = read_on(frame, ground, &mut colors, &[ENDING], true, 0);
    explain_outcome(led.outcome, led.frame, ground, at)
}
