// What a stored list of answers is made of: little-endian numbers of four bytes, Adler-32 checksums, of a palette too, and the
// Rust's ratios.
#![tactic(auto)]

ghost use Rattle.std.specs.Prelude.{◌≡◌};
ghost use Rattle.answers.specs.Adler.{with_byte, with_bytes, adler};
ghost use Rattle.answers.specs.Numbers.{number_at, signed_of};
ghost use Rattle.answers.specs.Ratio.{from_p1};
ghost use Rattle.answers.specs.Registers.{registers_sum};

use colours::Palette;

#[tactic(auto, unfolding(crate::specs::Adler::with_byte, crate::specs::Adler::lower))]
pub fn with_byte(sum: u32, byte: u8) -> u32
    ensures { result ≡ with_byte sum byte }
{
    let low = (sum % 65536 + (byte as u32)) % 65521;
    let high = (sum / 65536 + low) % 65521;
    high * 65536 + low
}

pub fn with_bytes(start: u32, bytes: &[u8]) -> u32
    ensures { result ≡ with_bytes start bytes.now }
{
    let mut sum = start;
    for i in 0..bytes.len() {
        sum = with_byte(sum, bytes[i]);
    }
    sum
}

#[tactic(auto, unfolding(crate::specs::Adler::adler))]
pub fn checksum(bytes: &[u8]) -> u32
    ensures { result ≡ adler bytes.now }
{
    with_bytes(1, bytes)
}

// The checksum of a palette's registers, each as four bytes.
pub fn registers_sum(palette: Palette) -> u32
    ensures { result ≡ registers_sum palette }
{
    let colors = palette.table();
    let mut sum = 1;
    for index in 0..256 {
        sum = with_bytes(sum, &colours::rgb_bytes(&colors, index));
    }
    sum
}

#[tactic(auto, unfolding(crate::specs::Numbers::number_at))]
pub fn number_at(bytes: &[u8], at: usize) -> u32
    ensures { result ≡ number_at bytes.now at }
{
    if bytes.len() < 4 || bytes.len() - 4 < at {
        return 0;
    }
    u32::from_le_bytes([bytes[at], bytes[at + 1], bytes[at + 2], bytes[at + 3]])
}

#[tactic(auto, unfolding(crate::specs::Numbers::signed_of))]
pub fn signed(bits: u32) -> i32
    ensures { result ≡ signed_of bits }
{
    bits.cast_signed()
}

// The Rust's ratio, vertical to 1, of a picture that leaves it to P1; 65,536 is no P1.
#[tactic(auto, unfolding(crate::specs::Ratio::from_p1))]
pub fn from_p1(p1: u32) -> u8
    ensures { result ≡ from_p1 p1 }
{
    match p1 {
        0 | 1 | 5 | 6 => 2,
        2 => 5,
        3 | 4 => 3,
        _ => 1,
    }
}
