// What is asked of the owner's palette and done to it, and what is said of that. While a session is open, this is the palette that was
// lent, and nothing is done to it.
use crate::say;
use colours::Palette;
use colours::marks::is_marked;
use std::io;

// A register, and the three values that its colour is mixed of.
#[derive(Clone, Copy)]
pub(crate) struct NewColor {
    pub(crate) index: usize,
    pub(crate) x: i32,
    pub(crate) y: i32,
    pub(crate) z: i32,
}

// What the owner does to the palette.
#[derive(Clone, Copy)]
pub(crate) enum Change {
    Reset,
    Rgb(NewColor),
    Hls(NewColor),
}

pub(crate) fn palette(rt: &impl Print, owner: Palette) -> io::Result<()> {
    rt.print("palette")?;
    say::checksum(rt, answers::registers_sum(owner))
}

// How many registers are marked, and the checksum of a byte for each.
pub(crate) fn marks(rt: &impl Print, owner: Palette) -> io::Result<()> {
    let colors = owner.table();
    let mut marks = [0; 256];
    for (index, mark) in marks.iter_mut().enumerate() {
        *mark = u8::from(is_marked(&colors, index));
    }
    say::number(
        rt,
        "marks ",
        marks.iter().filter(|mark| **mark == 1).count(),
    )?;
    say::checksum(rt, answers::checksum(&marks))
}

pub(crate) fn register(rt: &impl Print, owner: Palette, index: usize) -> io::Result<()> {
    rt.print("register ")?;
    for byte in owner.register(index) {
        say::byte(rt, byte)?;
    }
    rt.print(if owner.is_marked(index) {
        " marked"
    } else {
        " clear"
    })
}

// A conversion that needs no palette.
pub(crate) fn percent(rt: &impl Print, value: i32) -> io::Result<()> {
    let converted = hls::percent_to_byte(value);
    say::number(rt, "percent ", converted.byte as usize)?;
    say::holding(rt, converted.held)
}

// Changes the palette, and says how a register was set.
pub(crate) fn apply(rt: &impl Print, owner: &mut Palette, change: Change) -> io::Result<()> {
    let (word, set) = match change {
        Change::Reset => {
            *owner = owner.reset();
            return rt.print("reset");
        }
        Change::Rgb(NewColor { index, x, y, z }) => ("rgb", owner.set_rgb_percent(index, x, y, z)),
        Change::Hls(NewColor { index, x, y, z }) => ("hls", owner.set_hls(index, x, y, z)),
    };
    *owner = set.palette;
    rt.print(word)?;
    say::holding(rt, set.held)
}
