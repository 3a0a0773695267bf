// Which registers colour commands have defined (rules 9.8 and 9.9). A mark is part of its register's number, so that reading lends one
// table, and defining a register is one store.
ghost use Rattle.std.specs.Prelude.{◌≡◌, false, ◌+◌, ◌≤◌, length};
ghost use Rattle.colours.specs.Palette.{of_table};
ghost use Rattle.colours.specs.Marks.{is_marked, defined, lasting, Lasting, defined_count};

use crate::COLOR;

// A colour command has defined the register, in this frame or an earlier one.
const MARK: u32 = 16_777_216;

// The frame that is being read has defined it. No palette that a frame hands on has it.
const FRAME: u32 = 33_554_432;

// A colour command defines register `index`. There is none above 255, and nothing changes.
#[tactic(auto, unfolding(crate::specs::Palette::of_table, crate::specs::Marks::defined))]
pub(crate) fn define(colors: &mut [u32; 256], index: usize, color: u32)
    ensures { of_table colors.new ≡ defined (of_table colors.old) index color }
{
    if index < 256 {
        colors[index] = FRAME + MARK + color % COLOR;
    }
}

// Whether register `index` is marked; above 255 whether 255 is.
#[tactic(auto, unfolding(crate::specs::Palette::of_table, crate::specs::Marks::is_marked))]
pub fn is_marked(colors: &[u32; 256], index: usize) -> bool
    ensures { result ≡ is_marked (of_table colors.now) index }
{
    colors[index.min(255)] / MARK % 2 == 1
}

// Whether one of some registers may have something above its mark. No is certain.
fn may_exceed(colors: &[u32]) -> bool
    ensures { result ≡ false → Lasting colors.now 0 (length colors.now) }
{
    let mut all = 0;
    for &number in colors {
        all |= number;
    }
    all >= FRAME
}

// Counts the registers that the frame has defined, and leaves colours and marks. Small pictures feel a pass over all registers, and most
// define few, so it looks first where there is something to do. Asks for 256.
fn count_and_clear(colors: &mut [u32]) -> usize
    requires { length colors.old ≡ 256 }
    ensures { (result ≡ defined_count (of_table colors.old)) × (of_table colors.new ≡ lasting (of_table colors.old)) }
{
    let mut count = 0u32;
    for block in 0..4usize {
        if may_exceed(&colors[64 * block..64 * block + 64]) {
            // Kept: (c) in a loop over `&mut colors[..]` the invariant has this block alone, and the count of the table stayed open.
            for k in 64 * block..64 * block + 64 {
                let number = colors[k];
                count += number / FRAME % 2;
                colors[k] = number % FRAME;
            }
        }
    }
    count as usize
}

// What a frame hands on to its owner: colours and marks. Answers how many registers the frame has defined.
pub fn hand_on(colors: &mut [u32; 256]) -> usize
    ensures { (result ≡ defined_count (of_table colors.old)) × (of_table colors.new ≡ lasting (of_table colors.old)) }
{
    count_and_clear(colors)
}

// What a frame starts from: its owner's colours and marks, as an earlier frame would have handed them on.
pub fn begin(colors: &mut [u32; 256])
    ensures { of_table colors.new ≡ lasting (of_table colors.old) }
{
    hand_on(colors);
}
