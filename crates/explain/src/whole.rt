// What reading all at once is refused with. Places are counted from the start of the input.
ghost use Rattle.std.specs.Prelude.{◌≡◌, ◌≤◌, length, drop};
ghost use Rattle.colours.specs.Palette.{of_table};
ghost use Rattle.frame.specs.declared.Frame as Drawn;
ghost use Rattle.payload.specs.declared.Life.{Life};
ghost use Rattle.payload.specs.Core.{over};
ghost use Rattle.explain.specs.Explained.{whole_explained, started_explained, headed_from, input_explained, read_explained_on, read_explained};

use crate::dry::read_on;
use crate::{explain_outcome, explain_pending, placeless, told_at};
use colours::marks::begin;
use frame::{Frame, Ground, Limits, Outcome, Refusal};
use header::{Led, Place, read_lead, settings_from};
use numbers::Parameters;
use oneshot::search::header_start;
use payload::deferred::{reserve, start};
use payload::kernel::Setup;
use payload::kernel::opening::blank_frame;
use payload::refusals::may_open;
use payload::{Settings, no_settings};
use words::Telling;

const LARGEST: usize = 18_446_744_073_709_551_615;

// A payload from a place on, to the end of the bytes, and its finish. No ink is counted: nothing stops.
fn explain_payload(
    frame: Frame,
    ground: Ground,
    registers: &[u32; 256],
    bytes: &[u8],
    from: usize,
) -> Result<(), Telling>
    requires { from ≤ length bytes.now }
    ensures { result ≡ whole_explained frame ground (of_table registers.now) (drop from bytes.now) from (length bytes.now) }
{
    let part = &bytes[from..];
    let mut colors = *registers;
    let led = read_on(frame, ground, &mut colors, part, false, LARGEST);
    let outcome = led.outcome;
    if let Outcome::Read = outcome {
        return explain_pending(led.frame, ground, registers, bytes.len());
    }
    explain_outcome(outcome, led.frame, ground, from + led.consumed)
}

// A session that starts with these settings at a place of the bytes.
fn explain_started(
    setup: Setup,
    settings: Settings,
    registers: &[u32; 256],
    bytes: &[u8],
    from: usize,
) -> Result<(), Telling>
    requires { from ≤ length bytes.now }
    ensures { (life : Life) (f : Drawn.Frame)
        → result ≡ started_explained (over setup life f (of_table registers.now)) settings bytes.now from }
{
    let mut none = [0_u8; 0];
    let begun = start(setup, settings, registers, &mut none);
    let blank = blank_frame(registers);
    explain_payload(blank, begun.ground, registers, bytes, from)
}

// A header that begins at a place. One without `q` is 8.
fn explain_header(
    setup: Setup,
    registers: &[u32; 256],
    bytes: &[u8],
    at: usize,
) -> Result<(), Telling>
    ensures { (life : Life) (f : Drawn.Frame) → result ≡ headed_from at (over setup life f (of_table registers.now)) bytes.now }
{
    let lead = read_lead(Place::Header, Parameters::new(3), bytes, at);
    let consumed = lead.consumed;
    match lead.led {
        Ok(Led::On) => told_at(consumed, Refusal::Unfinished, None),
        Ok(Led::Begins) => {
            let settings = settings_from(lead.header);
            explain_started(setup, settings, registers, bytes, consumed)
        }
        Err(refusal) => told_at(consumed, refusal, None),
    }
}

// Without an introducer the whole input is payload, with no parameters.
fn explain_input(setup: Setup, registers: &[u32; 256], bytes: &[u8]) -> Result<(), Telling>
    ensures { (life : Life) (f : Drawn.Frame) → result ≡ input_explained (over setup life f (of_table registers.now)) bytes.now }
{
    match header_start(bytes) {
        Some(at) => explain_header(setup, registers, bytes, at),
        None => explain_started(setup, no_settings(), registers, bytes, 0),
    }
}

// With the registers that a session is to start from.
fn explain_on(
    limits: Limits,
    stride: usize,
    size: usize,
    registers: &[u32; 256],
    bytes: &[u8],
) -> Result<(), Telling>
    ensures { result ≡ read_explained_on limits stride size (of_table registers.now) bytes.now }
{
    if may_open(limits, stride, size) {
        let opened = reserve(limits, stride, registers, size);
        return explain_input(opened.setup, registers, bytes);
    }
    placeless(Refusal::Opening)
}

// Reading some bytes all at once on a canvas of so many bytes, with the owner's registers.
pub fn explain_read(
    limits: Limits,
    stride: usize,
    size: usize,
    palette: &[u32; 256],
    bytes: &[u8],
) -> Result<(), Telling>
    ensures { result ≡ read_explained limits stride size (of_table palette.now) bytes.now }
{
    let mut registers = *palette;
    begin(&mut registers);
    explain_on(limits, stride, size, &registers, bytes)
}
