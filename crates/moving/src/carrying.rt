// A picture's rows from one canvas to another.
ghost use Rattle.std.specs.Prelude.{◌≡◌};
ghost use Rattle.canvas.specs.Copy.{number_of};
ghost use Rattle.canvas.specs.Picture.{area_of};
ghost use Rattle.moving.specs.Carry.{carried_to};

use canvas::{Uncopied, copy_rows, has_picture};

// Carries a picture to another canvas, or says why not and writes nothing.
pub fn carry_picture(
    canvas: &[u8],
    stride: usize,
    width: usize,
    height: usize,
    other: &mut [u8],
    other_stride: usize,
) -> Result<(), Uncopied>
    ensures { (number_of result, other.new)
        ≡ carried_to stride other_stride (area_of width height) canvas.now other.old }
{
    if !has_picture(canvas.len(), stride, width, height) {
        return Err(Uncopied::Misfit);
    }
    if !has_picture(other.len(), other_stride, width, height) {
        return Err(Uncopied::Misfit);
    }
    copy_rows(canvas, stride, width, height, other, other_stride);
    Ok(())
}
