// Sizes against the limits, for any numbers: no sum and no product can overflow.
ghost use Rattle.std.specs.Prelude.{◌≡◌, ◌+◌, ◌*◌, ◌&&◌, leb, ltb};
ghost use Rattle.frame.specs.Sizes.{grown_area, raster_area, sixel_area};

use crate::{Frame, Ground, Pen, Refusal, VisibleArea};

// Whether `width * height` is above `most`.
pub fn exceeds(width: usize, height: usize, most: usize) -> bool
    ensures { result ≡ ltb most (width * height) }
{
    width != 0 && most / width < height
}

// Whether `from + count` is at most `most`.
pub fn reaches(from: usize, count: usize, most: usize) -> bool
    ensures { result ≡ leb (from + count) most }
{
    from <= most && count <= most - from
}

// The area grown to a size that is within the width and the height limit.
#[tactic(auto, unfolding(crate::specs::Sizes::grown_area, crate::specs::Sizes::room_for))]
fn grown_area(
    area: VisibleArea,
    ground: Ground,
    width: usize,
    height: usize,
) -> Result<VisibleArea, Refusal>
    ensures { result ≡ grown_area area ground width height }
{
    let width = area.width.max(width);
    let height = area.height.max(height);
    if exceeds(width, height, ground.limits.pixels) {
        return Err(Refusal::Pixels);
    }
    if ground.stride < width || ground.rows < height {
        return Err(Refusal::Room);
    }
    Ok(VisibleArea { width, height })
}

// The area that a raster's size needs.
#[tactic(auto, unfolding(crate::specs::Sizes::raster_area))]
pub fn raster_area(
    area: VisibleArea,
    ground: Ground,
    width: usize,
    height: usize,
) -> Result<VisibleArea, Refusal>
    ensures { result ≡ raster_area area ground width height }
{
    if ground.limits.width < width || ground.limits.height < height {
        return Err(Refusal::Size);
    }
    grown_area(area, ground, width, height)
}

// Whether the next sixel ends within a width and a height.
fn within(pen: Pen, width: usize, height: usize) -> bool
    ensures { result ≡ (leb (pen.column + pen.repeat) width && leb (pen.row + 6) height) }
{
    reaches(pen.column, pen.repeat, width) && reaches(pen.row, 6, height)
}

// The area that the next sixel needs. One that is visible already has passed every limit before.
#[tactic(auto, unfolding(crate::specs::Sizes::sixel_area))]
pub fn sixel_area(frame: Frame, ground: Ground) -> Result<VisibleArea, Refusal>
    ensures { result ≡ sixel_area frame.pen frame.area ground }
{
    let pen = frame.pen;
    let area = frame.area;
    if within(pen, area.width, area.height) {
        return Ok(area);
    }
    if within(pen, ground.limits.width, ground.limits.height) {
        return grown_area(area, ground, pen.column + pen.repeat, pen.row + 6);
    }
    Err(Refusal::Size)
}
