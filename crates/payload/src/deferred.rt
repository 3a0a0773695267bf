// What a DCS session needs of a payload session, which starts later: one that has not begun, and its start at `q`.
// Inner: for the crate dcs alone.
ghost use Rattle.std.specs.Prelude.{◌≡◌};
ghost use Rattle.colours.specs.Palette.{of_table};
ghost use Rattle.frame.specs.declared.Frame.{Frame};
ghost use Rattle.payload.specs.declared.Life.{Life};
ghost use Rattle.payload.specs.Core.{over, opened_over, begun_over};
ghost use Rattle.payload.specs.Deferred.{reserved_by, begun_by};

use crate::kernel::Setup;
use crate::kernel::opening::{Opened, background_for, open_if, paint_if};
use crate::refusals::may_open;
use crate::{Settings, no_settings};
use frame::{Ground, Limits};

// A session that has not begun: nothing is written.
pub fn reserve(limits: Limits, stride: usize, colors: &[u32; 256], length: usize) -> Opened
    ensures { opened_over result (of_table colors.now) ≡ reserved_by limits stride (of_table colors.now) length }
{
    let settings = no_settings();
    let may = may_open(limits, stride, length);
    open_if(may, limits, stride, length, settings, colors)
}

// The setup of a payload that starts with these settings, at `q`: pixel (0, 0) gets the background, where there is one.
pub fn start(setup: Setup, settings: Settings, colors: &[u32; 256], canvas: &mut [u8]) -> Setup
    ensures { (life : Life) (f : Frame) → begun_over result life (of_table colors.now) canvas.new
        ≡ begun_by (over setup life f (of_table colors.now)) settings canvas.old }
{
    let background = background_for(colors, settings.p2);
    paint_if(4 <= canvas.len(), canvas, background);
    Setup {
        ground: Ground {
            background,
            ..setup.ground
        },
        settings,
        ..setup
    }
}
