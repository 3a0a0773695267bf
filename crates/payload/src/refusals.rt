// The refusals that a session gives before it reads a byte, in the order of rules 5.2 and 5.3.
ghost use Rattle.std.specs.Prelude.{◌≡◌};
ghost use Rattle.colours.specs.declared.Palette.{Palette};
ghost use Rattle.payload.specs.Core.{over};
ghost use Rattle.payload.specs.Refusals.{in_range, limits_fit, openable, is_failed, misfitting, feed_judged, finish_judged};

use crate::Life;
use crate::kernel::Setup;
use frame::{Frame, Limits, Refusal};

const WIDEST: usize = 1_000_000;

const MOST: usize = 1_000_000_000_000;

// 1 to `most`.
#[tactic(auto, unfolding(crate::specs::Refusals::in_range))]
fn in_range(n: usize, most: usize) -> bool
    ensures { result ≡ in_range n most }
{
    1 <= n && n <= most
}

#[tactic(auto, unfolding(crate::specs::Refusals::limits_fit))]
fn limits_hold(limits: Limits) -> bool
    ensures { result ≡ limits_fit limits }
{
    in_range(limits.width, WIDEST)
        && in_range(limits.height, WIDEST)
        && in_range(limits.repeats, MOST)
        && in_range(limits.pixels, MOST)
}

#[tactic(auto, unfolding(crate::specs::Refusals::openable))]
pub fn may_open(limits: Limits, stride: usize, length: usize) -> bool
    ensures { result ≡ openable limits stride length }
{
    limits_hold(limits) && in_range(stride, WIDEST) && 1 <= canvas::rows(length, stride)
}

// Another length than at the opening, or a picture that does not fit.
#[tactic(auto, unfolding(crate::specs::Refusals::misfitting, crate::specs::Refusals::fitting))]
fn misfits(setup: Setup, life: Life, frame: Frame, length: usize) -> bool
    ensures { (p : Palette) → result ≡ misfitting (over setup life frame p) length }
{
    let ground = setup.ground;
    let area = frame.area;
    length != setup.length
        || ground.rows != canvas::rows(length, ground.stride)
        || ground.stride < area.width
        || ground.rows < area.height
}

pub fn has_failed(life: Life) -> bool
    ensures { result ≡ is_failed life }
{
    matches!(life, Life::Failed)
}

// 9, 12.
pub fn finish_refusal(setup: Setup, life: Life, frame: Frame, length: usize) -> Result<(), Refusal>
    ensures { (p : Palette) → result ≡ finish_judged (over setup life frame p) length }
{
    if has_failed(life) {
        return Err(Refusal::Failed);
    }
    if misfits(setup, life, frame, length) {
        return Err(Refusal::Canvas);
    }
    Ok(())
}

// 9, 12, 13. An allowance below 6W is found by division, since 6W could overflow in a damaged session.
pub fn feed_refusal(
    setup: Setup,
    life: Life,
    frame: Frame,
    length: usize,
    allowance: usize,
) -> Result<(), Refusal>
    ensures { (p : Palette) → result ≡ feed_judged (over setup life frame p) length allowance }
{
    finish_refusal(setup, life, frame, length)?;
    if allowance / 6 < setup.ground.limits.width {
        return Err(Refusal::Allowance);
    }
    Ok(())
}
