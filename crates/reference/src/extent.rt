// The extent after a sixel: how far right and how far down it has painted.
ghost use Rattle.std.specs.Prelude.{◌≡◌, ◌+◌, ◌<◌};
ghost use Rattle.canvas.specs.Picture.{depth};
ghost use Rattle.reference.specs.Step.{right_after, bottom_after};

// How far down six bits go: one past the lowest that is set, or 0. Their binary digits, so that no bit is tested.
fn depth_of(bits: u8) -> usize
    requires { bits < 64 }
    ensures { result ≡ depth 6 bits }
{
    let unused = u32::leading_zeros(bits as u32) as usize;
    32 - unused
}

// A blank sixel keeps the right.
// Inner: asks for no more than six bits.
pub fn right_after(right: usize, bits: u8, end: usize) -> usize
    requires { bits < 64 }
    ensures { result ≡ right_after right bits end }
{
    if bits == 0 {
        return right;
    }
    right.max(end)
}

// And it keeps the bottom.
// Inner: asks that the rows end below what a number can hold, and for no more than six bits.
pub fn bottom_after(bottom: usize, bits: u8, row: usize) -> usize
    requires { (row + 6 < 18446744073709551616) × (bits < 64) }
    ensures { result ≡ bottom_after bottom bits row }
{
    if bits == 0 {
        return bottom;
    }
    bottom.max(row + depth_of(bits))
}
