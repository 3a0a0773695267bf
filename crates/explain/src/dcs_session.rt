// What a DCS session's calls are refused with, from the session before the call.
ghost use Rattle.std.specs.Prelude.{◌≡◌, ◌≤◌, length, drop};
ghost use Rattle.numbers.specs.declared.Parameters.{Parameters};
ghost use Rattle.frame.specs.declared.Frame.{Frame};
ghost use Rattle.colours.specs.Palette.{of_table};
ghost use Rattle.payload.specs.Core as payload;
ghost use Rattle.payload.specs.Deferred.{begun_session};
ghost use Rattle.dcs.specs.Core.{over};
ghost use Rattle.dcs.specs.Session.{before, session_of};
ghost use Rattle.explain.specs.Explained.{fed_explained, lead_explained, dcs_feed_in, dcs_feed_explained, dcs_finish_in, dcs_finish_explained};

use crate::payload_session::{explain_fed, explain_passed};
use crate::{explain_pending, placeless, told_at};
use dcs::Phase;
use dcs::kernel::Core;
use frame::Refusal;
use header::{Led, Place, read_lead, settings_from};
use numbers::Parameters;
use payload::deferred::start;
use payload::kernel::Setup;
use payload::kernel::opening::blank_frame;
use payload::refusals::{feed_refusal, finish_refusal};
use payload::{Life, Settings};
use words::Telling;

// The payload begins at a place of the bytes.
fn explain_begun(
    setup: Setup,
    life: Life,
    settings: Settings,
    registers: &[u32; 256],
    size: usize,
    bytes: &[u8],
    from: usize,
    allowance: usize,
) -> Result<(), Telling>
    requires { from ≤ length bytes.now }
    ensures { (f : Frame) → result ≡ fed_explained (begun_session (payload.over setup life f (of_table registers.now)) settings) size
        (drop from bytes.now) from allowance }
{
    let mut none = [0_u8; 0];
    let begun = start(setup, settings, registers, &mut none);
    let blank = blank_frame(registers);
    explain_fed(begun, life, blank, registers, size, bytes, from, allowance)
}

// Before the payload.
fn explain_lead(
    setup: Setup,
    life: Life,
    header: Parameters,
    place: Place,
    registers: &[u32; 256],
    size: usize,
    bytes: &[u8],
    allowance: usize,
) -> Result<(), Telling>
    ensures { (f : Frame) → result ≡ lead_explained place (before (payload.over setup life f (of_table registers.now)) header place) size
        bytes.now allowance }
{
    let lead = read_lead(place, header, bytes, 0);
    let consumed = lead.consumed;
    match lead.led {
        Ok(Led::On) => Ok(()),
        Ok(Led::Begins) => {
            let settings = settings_from(lead.header);
            explain_begun(
                setup, life, settings, registers, size, bytes, consumed, allowance,
            )
        }
        Err(refusal) => told_at(consumed, refusal, None),
    }
}

// A feed on a canvas of so many bytes. The place is counted from the start of the bytes that it is given.
pub fn explain_feed(
    core: Core,
    registers: &[u32; 256],
    size: usize,
    bytes: &[u8],
    allowance: usize,
) -> Result<(), Telling>
    ensures { result ≡ dcs_feed_explained (over core (of_table registers.now)) size bytes.now allowance }
{
    let life = core.life;
    if let Err(refusal) = feed_refusal(core.setup, life, core.frame, size, allowance) {
        return placeless(refusal);
    }
    match core.phase {
        Phase::Before(place) => explain_lead(
            core.setup,
            life,
            core.header,
            place,
            registers,
            size,
            bytes,
            allowance,
        ),
        Phase::Within => explain_passed(
            core.setup, life, core.frame, registers, bytes, 0, allowance,
        ),
        Phase::Escaped => Ok(()),
        Phase::Over(_) => Ok(()),
    }
}

// A finish. It is given no byte, and its place is 0: where the bytes before it end.
pub fn explain_finish(core: Core, registers: &[u32; 256], size: usize) -> Result<(), Telling>
    ensures { result ≡ dcs_finish_explained (over core (of_table registers.now)) size }
{
    if let Err(refusal) = finish_refusal(core.setup, core.life, core.frame, size) {
        return placeless(refusal);
    }
    if let Phase::Over(_) = core.phase {
        return explain_pending(core.frame, core.setup.ground, registers, 0);
    }
    told_at(0, Refusal::Unfinished, None)
}
