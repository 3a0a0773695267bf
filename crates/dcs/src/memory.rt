// A session as 48 numbers and 256 registers, for a caller that keeps it in its own memory: the payload session's 34 numbers, the phase,
// and the nine of the header. Any numbers are a session, and 48 zeros are a failed one.
ghost use Rattle.std.specs.Prelude.{◌≡◌};
ghost use Rattle.colours.specs.declared.Palette.{Palette};
ghost use Rattle.dcs.specs.Core.{over};
ghost use Rattle.dcs.specs.Memory.{place_number, ending_number, phase_number, phase_from, numbers_of, core_from};

use crate::kernel::Core;
use crate::{Ending, Phase};
use header::Place;
use numbers::memory::{numbers_of as header_numbers, parameters_from};
use payload::codes::life_from;
use payload::memory::{frame_from, numbers_of as payload_numbers, setup_from};
use payload::places;

// Kept: numbers for places, endings and phases, since the session lies in a C caller's memory (`owlgantry_raw_dcs_feed`).
fn place_number(place: Place) -> u64
    ensures { result ≡ place_number place }
{
    match place {
        Place::Start => 0,
        Place::Introduced => 1,
        Place::Header => 2,
    }
}

fn ending_number(ending: Ending) -> u64
    ensures { result ≡ ending_number ending }
{
    match ending {
        Ending::Complete => 5,
        Ending::Cancelled(byte) => byte as u64 + 256,
        Ending::Interrupted(byte) => byte as u64 + 512,
    }
}

fn phase_number(phase: Phase) -> u64
    ensures { result ≡ phase_number phase }
{
    match phase {
        Phase::Before(place) => place_number(place),
        Phase::Within => 3,
        Phase::Escaped => 4,
        Phase::Over(ending) => ending_number(ending),
    }
}

pub fn phase_from(number: u64) -> Phase
    ensures { result ≡ phase_from number }
{
    if number == 0 {
        return Phase::Before(Place::Start);
    }
    if number == 1 {
        return Phase::Before(Place::Introduced);
    }
    if number == 2 {
        return Phase::Before(Place::Header);
    }
    if number == 3 {
        return Phase::Within;
    }
    if number == 4 {
        return Phase::Escaped;
    }
    if number < 256 {
        return Phase::Over(Ending::Complete);
    }
    if number < 512 {
        return Phase::Over(Ending::Cancelled((number % 256) as u8));
    }
    Phase::Over(Ending::Interrupted((number % 256) as u8))
}

pub fn numbers_of(core: Core) -> [u64; 48]
    ensures { (p : Palette) → result ≡ numbers_of (over core p) }
{
    let values = header_numbers(core.header);
    let mut numbers = payload_numbers(core.setup, core.life, core.frame);
    numbers[places::PHASE] = phase_number(core.phase);
    numbers[places::HEADER_0] = values[0];
    numbers[places::HEADER_1] = values[1];
    numbers[places::HEADER_2] = values[2];
    numbers[places::HEADER_3] = values[3];
    numbers[places::HEADER_4] = values[4];
    numbers[places::HEADER_5] = values[5];
    numbers[places::HEADER_6] = values[6];
    numbers[places::HEADER_7] = values[7];
    numbers[places::HEADER_8] = values[8];
    numbers
}

// The hint makes it part of a feed, though explaining one calls it too.
#[inline(always)]
pub fn core_from(numbers: &[u64; 48]) -> Core
    ensures { result ≡ core_from numbers.now }
{
    let values = [
        numbers[places::HEADER_0],
        numbers[places::HEADER_1],
        numbers[places::HEADER_2],
        numbers[places::HEADER_3],
        numbers[places::HEADER_4],
        numbers[places::HEADER_5],
        numbers[places::HEADER_6],
        numbers[places::HEADER_7],
        numbers[places::HEADER_8],
    ];
    let header = parameters_from(values);
    let phase = phase_from(numbers[places::PHASE]);
    let life = life_from(numbers[places::LIFE]);
    Core {
        setup: setup_from(numbers),
        life,
        frame: frame_from(numbers),
        header,
        phase,
    }
}
