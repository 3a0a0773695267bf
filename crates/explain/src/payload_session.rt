// What a payload session's calls are refused with, from the session before the call.
ghost use Rattle.std.specs.Prelude.{◌≡◌, ◌≤◌, length, drop};
ghost use Rattle.colours.specs.Palette.{of_table};
ghost use Rattle.payload.specs.Core.{over};
ghost use Rattle.explain.specs.Explained.{fed_explained_in, fed_explained, payload_feed_explained, payload_finish_explained};

use crate::{explain_part, explain_pending, placeless};
use frame::Frame;
use payload::Life;
use payload::kernel::Setup;
use payload::refusals::{feed_refusal, finish_refusal};
use words::Telling;

// A feed that 9, 12 and 13 do not refuse, of the bytes from a place on.
pub(crate) fn explain_passed(
    setup: Setup,
    life: Life,
    frame: Frame,
    registers: &[u32; 256],
    bytes: &[u8],
    from: usize,
    allowance: usize,
) -> Result<(), Telling>
    requires { from ≤ length bytes.now }
    ensures { result ≡ fed_explained_in life (over setup life frame (of_table registers.now)) (drop from bytes.now) from allowance }
{
    if let Life::Ended(_) = life {
        return Ok(());
    }
    explain_part(frame, setup.ground, registers, bytes, from, allowance)
}

// A feed of the bytes from a place on, on a canvas of so many bytes.
pub(crate) fn explain_fed(
    setup: Setup,
    life: Life,
    frame: Frame,
    registers: &[u32; 256],
    size: usize,
    bytes: &[u8],
    from: usize,
    allowance: usize,
) -> Result<(), Telling>
    requires { from ≤ length bytes.now }
    ensures { result ≡ fed_explained (over setup life frame (of_table registers.now)) size (drop from bytes.now) from allowance }
{
    if let Err(refusal) = feed_refusal(setup, life, frame, size, allowance) {
        return placeless(refusal);
    }
    explain_passed(setup, life, frame, registers, bytes, from, allowance)
}

// A feed on a canvas of so many bytes. The place is counted from the start of the bytes that it is given.
pub fn explain_feed(
    setup: Setup,
    life: Life,
    frame: Frame,
    registers: &[u32; 256],
    size: usize,
    bytes: &[u8],
    allowance: usize,
) -> Result<(), Telling>
    ensures { result ≡ payload_feed_explained (over setup life frame (of_table registers.now)) size bytes.now allowance }
{
    explain_fed(setup, life, frame, registers, size, bytes, 0, allowance)
}

// A finish. It is given no byte, and its place is 0: where the bytes before it end.
pub fn explain_finish(
    setup: Setup,
    life: Life,
    frame: Frame,
    registers: &[u32; 256],
    size: usize,
) -> Result<(), Telling>
    ensures { result ≡ payload_finish_explained (over setup life frame (of_table registers.now)) size }
{
    if let Err(refusal) = finish_refusal(setup, life, frame, size) {
        return placeless(refusal);
    }
    explain_pending(frame, setup.ground, registers, 0)
}
