// A parameter, a life, a kind and a colour as one number each, for a session that lies in a caller's memory.
ghost use Rattle.std.specs.Prelude.{◌≡◌, ◌+◌, ◌*◌};
ghost use Rattle.colours.specs.Packing.{packed};
ghost use Rattle.payload.specs.Codes.{given_number, given_from, life_number, life_from, kind_number, kind_from, color_number, color_from};

use crate::Life;
use colours::pack_rgb;
use frame::Kind;

// No number of 16 bits: a parameter that is missing.
const MISSING: u64 = 65_536;

#[tactic(auto, unfolding(crate::specs::Codes::given_number))]
pub fn given_number(given: Option<u16>) -> u64
    ensures { result ≡ given_number given }
{
    given.map_or(MISSING, u64::from)
}

pub fn given_from(number: u64) -> Option<u16>
    ensures { result ≡ given_from number }
{
    u16::try_from(number).ok()
}

// Kept: numbers for lives and kinds, since the session lies in a C caller's memory (`owlgantry_raw_payload_feed`).
pub fn life_number(life: Life) -> u64
    ensures { result ≡ life_number life }
{
    match life {
        Life::Live => 1,
        Life::Ended(byte) => byte as u64 + 2,
        Life::Failed => 0,
    }
}

pub fn life_from(number: u64) -> Life
    ensures { result ≡ life_from number }
{
    if number == 0 {
        return Life::Failed;
    }
    if number == 1 {
        return Life::Live;
    }
    Life::Ended(((number - 2) % 256) as u8)
}

pub fn kind_number(kind: Kind) -> u64
    ensures { result ≡ kind_number kind }
{
    match kind {
        Kind::Data => 0,
        Kind::Repeat => 1,
        Kind::Color => 2,
        Kind::Raster => 3,
    }
}

pub fn kind_from(number: u64) -> Kind
    ensures { result ≡ kind_from number }
{
    if number == 0 {
        return Kind::Data;
    }
    if number == 1 {
        return Kind::Repeat;
    }
    if number == 2 {
        return Kind::Color;
    }
    Kind::Raster
}

// Alpha above red, green and blue.
fn joined(red: u8, green: u8, blue: u8, alpha: u8) -> u64
    ensures { result ≡ alpha * 16777216 + packed red green blue }
{
    alpha as u64 * 16_777_216 + pack_rgb(red, green, blue) as u64
}

pub fn color_number(color: [u8; 4]) -> u64
    ensures { result ≡ color_number color }
{
    joined(color[0], color[1], color[2], color[3])
}

pub fn color_from(number: u64) -> [u8; 4]
    ensures { result ≡ color_from number }
{
    [
        (number / 65_536 % 256) as u8,
        (number / 256 % 256) as u8,
        (number % 256) as u8,
        (number / 16_777_216 % 256) as u8,
    ]
}
