// How a session is finished.
ghost use Rattle.std.specs.Prelude.{◌≡◌};
ghost use Rattle.numbers.specs.declared.Parameters.{Parameters};
ghost use Rattle.colours.specs.Palette.{of_table};
ghost use Rattle.payload.specs.Core as payload;
ghost use Rattle.dcs.specs.Session.{session_of, end_judged, finished_by};

use crate::Phase;
use frame::{Frame, Refusal};
use payload::kernel::{Setup, finishing};
use payload::refusals::finish_refusal;
use payload::{Life, Report};

// 8 where the sequence is not over, after what the payload session says.
fn end_refusal(verdict: Result<(), Refusal>, phase: Phase) -> Result<(), Refusal>
    ensures { result ≡ end_judged verdict phase }
{
    verdict?;
    if let Phase::Over(_) = phase {
        return Ok(());
    }
    Err(Refusal::Unfinished)
}

// Finishes a sequence that has come to its end, as a payload session is finished. The header is of no account by then.
pub fn finish(
    setup: Setup,
    life: Life,
    frame: Frame,
    phase: Phase,
    colors: &mut [u32; 256],
    canvas: &mut [u8],
) -> Result<Report, Refusal>
    ensures { (h : Parameters) → (payload.finished_over result colors.new, canvas.new) ≡ finished_by
        (session_of (payload.over setup life frame (of_table colors.old)) h phase) (of_table colors.old) canvas.old }
{
    let inner = finish_refusal(setup, life, frame, canvas.len());
    end_refusal(inner, phase)?;
    finishing::finish(setup, life, frame, colors, canvas)
}
