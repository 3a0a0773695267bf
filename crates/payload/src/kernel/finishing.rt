// How a session is finished.
ghost use Rattle.std.specs.Prelude.{◌≡◌, length};
ghost use Rattle.colours.specs.Palette.{of_table};
ghost use Rattle.reference.specs.Step.{Fits};
ghost use Rattle.payload.specs.Core.{over, finished_over};
ghost use Rattle.payload.specs.Session.{ratio_for, reported_as, reached_on, carried_out, finished_live, finished_by};

use crate::kernel::Setup;
use crate::kernel::opening::is_transparent;
use crate::refusals::finish_refusal;
use crate::{Life, Ratio, Report, Settings};
use colours::marks::hand_on;
use frame::{Frame, Ground, Kind, Outcome, Progress, Raster, Refusal};
use reading::process;

fn ratio_for(raster: Raster, p1: Option<u16>) -> Ratio
    ensures { result ≡ ratio_for raster p1 }
{
    if raster.ratio == 0 {
        return Ratio::LeftToP1(p1);
    }
    Ratio::Raster(raster.ratio)
}

fn report_for(frame: Frame, settings: Settings, defined: usize) -> Report
    ensures { result ≡ reported_as frame settings defined }
{
    let area = frame.area;
    let extent = frame.extent;
    let raster = frame.raster;
    Report {
        width: area.width,
        height: area.height,
        right: extent.right,
        bottom: extent.bottom,
        ratio: ratio_for(raster, settings.p1),
        transparent: is_transparent(settings.p2),
        defined,
        declared_width: raster.width,
        declared_height: raster.height,
        held: frame.held,
    }
}

// A byte that ends a payload.
const ENDING: u8 = 0x1B;

// Carries the pending command out as any is: by a byte that ends it.
fn end_pending(frame: Frame, ground: Ground, colors: &mut [u32; 256], canvas: &mut [u8]) -> Progress
    requires { Fits frame ground (length canvas.old) }
    ensures { reached_on result colors.new canvas.new ≡ carried_out frame ground (of_table colors.old) canvas.old }
{
    if let Kind::Data = frame.command.kind {
        return Progress {
            frame,
            consumed: 0,
            ink: 0,
            outcome: Outcome::Read,
        };
    }
    process(frame, ground, colors, canvas, &[ENDING], 0)
}

// Finishes a session that has passed 9 and 12.
fn finish_live(
    setup: Setup,
    life: Life,
    frame: Frame,
    colors: &mut [u32; 256],
    canvas: &mut [u8],
) -> Result<Report, Refusal>
    requires { Fits frame setup.ground (length canvas.old) }
    ensures { (finished_over result colors.new, canvas.new)
        ≡ finished_live (over setup life frame (of_table colors.old)) (of_table colors.old) canvas.old }
{
    let last = end_pending(frame, setup.ground, colors, canvas);
    if let Outcome::Refused(refusal) = last.outcome {
        return Err(refusal);
    }
    let defined = hand_on(colors);
    Ok(report_for(last.frame, setup.settings, defined))
}

// Carries the pending command out and reports. The session is gone. The registers are what the picture leaves its owner where there is
// one, and else stay as they are.
pub fn finish(
    setup: Setup,
    life: Life,
    frame: Frame,
    colors: &mut [u32; 256],
    canvas: &mut [u8],
) -> Result<Report, Refusal>
    ensures { (finished_over result colors.new, canvas.new)
        ≡ finished_by (over setup life frame (of_table colors.old)) (of_table colors.old) canvas.old }
{
    finish_refusal(setup, life, frame, canvas.len())?;
    finish_live(setup, life, frame, colors, canvas)
}
