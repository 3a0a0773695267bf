// The stored answers, part by part, beside ours.
use crate::hues::checksum;
use answers::{number_at, signed};
use colours::Palette;

// How many colours were compared, and how many of the stored answers differ.
#[derive(Clone, Copy, Default)]
pub struct Tally {
    pub compared: u64,
    pub differing: u64,
}

impl Tally {
    // One stored answer more, which stands for `colors` colours.
    fn add(&mut self, colors: u64, is_same: bool) {
        self.compared = self.compared.wrapping_add(colors);
        self.differing = self.differing.wrapping_add(u64::from(!is_same));
    }
}

// Whether these bytes stand at a place of the file. A place past its end holds nothing, and no byte equals that.
fn holds(stored: &[u8], at: usize, bytes: &[u8]) -> bool {
    stored.get(at..).is_some_and(|rest| rest.starts_with(bytes))
}

// 360 checksums.
fn hues(stored: &[u8], tally: &mut Tally) {
    for hue in 0..360 {
        tally.add(10201, number_at(stored, 4 * hue) == checksum(hue as i32));
    }
}

fn percent(stored: &[u8], at: usize, value: i32, tally: &mut Tally) {
    tally.add(1, holds(stored, at, &[hls::percent_to_byte(value).byte]));
}

// The bytes of -300 to 400, and of the two ends of i32.
fn percents(stored: &[u8], tally: &mut Tally) {
    for place in 0..701 {
        percent(stored, 1440 + place, place as i32 - 300, tally);
    }
    percent(stored, 2141, i32::MIN, tally);
    percent(stored, 2142, i32::MAX, tally);
}

// A sample's H, L and S, and the three bytes of its colour.
fn is_sample_same(sample: &[u8]) -> bool {
    let h = signed(number_at(sample, 0));
    let l = signed(number_at(sample, 4));
    let s = signed(number_at(sample, 8));
    holds(sample, 12, &hls::hls_to_rgb(h, l, s))
}

fn samples(stored: &[u8], count: u32, tally: &mut Tally) {
    for i in 0..count as usize {
        let sample = stored.get(2147 + 15 * i..).unwrap_or(&[]);
        tally.add(1, is_sample_same(sample));
    }
}

fn registers(stored: &[u8], tally: &mut Tally) {
    for index in 0..256 {
        let [red, green, blue, _] = Palette::standard().register(index);
        tally.add(1, holds(stored, 3 * index, &[red, green, blue]));
    }
}

pub(crate) fn all(stored: &[u8]) -> Tally {
    let mut tally = Tally::default();
    let count = number_at(stored, 2143);
    let rest = stored.get(2147 + 15 * (count as usize)..).unwrap_or(&[]);
    hues(stored, &mut tally);
    percents(stored, &mut tally);
    samples(stored, count, &mut tally);
    registers(rest, &mut tally);
    tally.add(0, rest.len() == 768);
    tally
}
