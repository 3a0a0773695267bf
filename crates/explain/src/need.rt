// What a refused byte needed (rule 5.10), from the frame that the refusal left: the pending command is the refused one, and where none is
// pending it is the next sixel.
ghost use Rattle.std.specs.Prelude.{◌≡◌};
ghost use Rattle.explain.specs.Need.{short_of, pixels_short, size_short, sixel_short, raster_short, repeat_short, need_of};

use frame::rasters::raster_after;
use frame::sizes::exceeds;
use frame::{Frame, Ground, Kind, VisibleArea};
use words::{Shortage, Thing};

// The largest side and the largest number of all that a setting can allow: what is above them is told as more than them.
const MOST_OF_SIDE: usize = 1_000_000;

const MOST_OF_ALL: usize = 1_000_000_000_000;

#[tactic(auto, unfolding(crate::specs::Need::short_of))]
fn short(most: usize, thing: Thing, n: usize, allowed: usize) -> Shortage
    ensures { result ≡ short_of most thing n allowed }
{
    Shortage {
        needed: n.min(most) as u64,
        allowed: allowed as u64,
        thing,
        more: most < n,
    }
}

#[tactic(auto, unfolding(crate::specs::Need::pixels_short, crate::specs::Need::short_of))]
fn pixels_short(width: usize, height: usize, allowed: usize) -> Shortage
    ensures { result ≡ pixels_short width height allowed }
{
    if exceeds(width, height, MOST_OF_ALL) {
        return Shortage {
            needed: MOST_OF_ALL as u64,
            allowed: allowed as u64,
            thing: Thing::Pixels,
            more: true,
        };
    }
    short(MOST_OF_ALL, Thing::Pixels, width * height, allowed)
}

// The first of the limits and the canvas's sides that a size is above, in the order of rule 4.2.
#[tactic(auto, unfolding(crate::specs::Need::size_short))]
fn size_short(area: VisibleArea, ground: Ground, width: usize, height: usize) -> Shortage
    ensures { result ≡ size_short area ground width height }
{
    let limits = ground.limits;
    if limits.width < width {
        return short(MOST_OF_SIDE, Thing::Columns, width, limits.width);
    }
    if limits.height < height {
        return short(MOST_OF_SIDE, Thing::Rows, height, limits.height);
    }
    let wide = area.width.max(width);
    let high = area.height.max(height);
    if exceeds(wide, high, limits.pixels) {
        return pixels_short(wide, high, limits.pixels);
    }
    if ground.stride < width {
        return short(MOST_OF_SIDE, Thing::Columns, width, ground.stride);
    }
    short(MOST_OF_SIDE, Thing::Rows, height, ground.rows)
}

#[tactic(auto, unfolding(crate::specs::Need::sixel_short))]
fn sixel_short(frame: Frame, ground: Ground) -> Shortage
    ensures { result ≡ sixel_short frame ground }
{
    let width = frame.pen.column.saturating_add(frame.pen.repeat);
    let height = frame.pen.row.saturating_add(6);
    size_short(frame.area, ground, width, height)
}

#[tactic(auto, unfolding(crate::specs::Need::raster_short, frame::specs::Commands::finished_of))]
fn raster_short(frame: Frame, ground: Ground) -> Shortage
    ensures { result ≡ raster_short frame ground }
{
    let raster = raster_after(frame.raster, frame.command.parameters.finish());
    size_short(
        frame.area,
        ground,
        raster.width.max(1),
        raster.height.max(1),
    )
}

#[tactic(auto, unfolding(crate::specs::Need::repeat_short))]
fn repeat_short(frame: Frame, ground: Ground) -> Shortage
    ensures { result ≡ repeat_short frame ground }
{
    let number = frame.command.number as usize;
    short(MOST_OF_ALL, Thing::Repeats, number, ground.limits.repeats)
}

// What the command or the sixel needed for which a frame was refused.
#[tactic(auto, unfolding(crate::specs::Need::need_of, crate::specs::Need::need_in))]
pub fn need_of(frame: Frame, ground: Ground) -> Option<Shortage>
    ensures { result ≡ need_of frame ground }
{
    match frame.command.kind {
        Kind::Data => Some(sixel_short(frame, ground)),
        Kind::Repeat => Some(repeat_short(frame, ground)),
        Kind::Color => None,
        Kind::Raster => Some(raster_short(frame, ground)),
    }
}
