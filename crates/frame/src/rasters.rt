// A raster's values: the ratio, the sizes, and the area that they need.
ghost use Rattle.std.specs.Prelude.{◌≡◌, ◌&&◌, eqb};
ghost use Rattle.numbers.specs.Step.{finished};
ghost use Rattle.frame.specs.Commands.{quotient_of, ratio_by, kept_size, raster_by, measured_by};

use crate::sizes::raster_area;
use crate::{Ground, Raster, Refusal, VisibleArea};
use numbers::Parameters;

// A quotient of exactly 1, 2, 3 or 5, else 0.
#[tactic(auto, unfolding(crate::specs::Commands::quotient_of))]
fn quotient(vertical: u32, horizontal: u32) -> u8
    ensures { result ≡ quotient_of vertical horizontal }
{
    let v = vertical as u64;
    let h = horizontal as u64;
    if v == h {
        return 1;
    }
    if v == 2 * h {
        return 2;
    }
    if v == 3 * h {
        return 3;
    }
    if v == 5 * h {
        return 5;
    }
    0
}

#[tactic(auto, unfolding(crate::specs::Commands::ratio_by))]
fn ratio_after(old: u8, parameters: Parameters) -> u8
    ensures { result ≡ ratio_by old parameters }
{
    if parameters.count() < 2 {
        return old;
    }
    quotient(parameters.value(0).max(1), parameters.value(1).max(1))
}

// A size above 0 is kept.
#[tactic(auto, unfolding(crate::specs::Commands::kept_size))]
fn kept(old: usize, value: u32) -> usize
    ensures { result ≡ kept_size old value }
{
    if value == 0 {
        return old;
    }
    value as usize
}

// What a raster command leaves of an earlier one: its ratio, and the sizes that it gives.
#[tactic(auto, unfolding(crate::specs::Commands::raster_by))]
pub fn raster_after(old: Raster, parameters: Parameters) -> Raster
    ensures { result ≡ raster_by old parameters }
{
    Raster {
        ratio: ratio_after(old.ratio, parameters),
        width: kept(old.width, parameters.value(2)),
        height: kept(old.height, parameters.value(3)),
    }
}

// No size is kept.
pub fn sizeless(raster: Raster) -> bool
    ensures { result ≡ (eqb raster.width 0 && eqb raster.height 0) }
{
    raster.width == 0 && raster.height == 0
}

// What a raster that is not refused comes to: it has no size, or needs an area.
#[derive(Clone, Copy)]
pub enum Measured {
    Sizeless(Raster),
    Sized { raster: Raster, area: VisibleArea },
}

// The hint is as at `end_command`.
#[inline(always)]
#[tactic(auto, unfolding(crate::specs::Commands::measured_by, crate::specs::Commands::measured_in))]
pub fn measure(
    begun: Parameters,
    old: Raster,
    area: VisibleArea,
    ground: Ground,
) -> Result<Measured, Refusal>
    ensures { result ≡ measured_by (raster_by old (finished begun)) area ground }
{
    let raster = raster_after(old, begun.finish());
    if sizeless(raster) {
        return Ok(Measured::Sizeless(raster));
    }
    let area = raster_area(area, ground, raster.width.max(1), raster.height.max(1))?;
    Ok(Measured::Sized { raster, area })
}
