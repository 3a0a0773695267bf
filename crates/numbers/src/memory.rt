// The values of a command as nine numbers, for a session that lies in a caller's memory: the five values, how many there are, the
// number being read, 1 where it is to be stored at the end, and the places. Inner: for the sessions alone.
ghost use Rattle.std.specs.Prelude.{◌≡◌, ◌%◌};
ghost use Rattle.numbers.specs.Memory.{numbers_of, parameters_from};

use crate::Parameters;

// One more than the largest number of 32 bits.
const BITS_32: u64 = 4_294_967_296;

// The lowest 32 bits of a number.
fn low(number: u64) -> u32
    ensures { result ≡ number % 4294967296 }
{
    (number % BITS_32) as u32
}

#[tactic(auto, unfolding(crate::specs::Memory::numbers_of))]
pub fn numbers_of(parameters: Parameters) -> [u64; 9]
    ensures { result ≡ numbers_of parameters }
{
    let [a, b, c, d, e] = parameters.values;
    [
        a.into(),
        b.into(),
        c.into(),
        d.into(),
        e.into(),
        parameters.count as u64,
        parameters.current.into(),
        parameters.pending.into(),
        parameters.places as u64,
    ]
}

// Whatever the numbers are: those of 32 bits are truncated.
#[tactic(auto, unfolding(crate::specs::Memory::parameters_from))]
pub fn parameters_from(numbers: [u64; 9]) -> Parameters
    ensures { result ≡ parameters_from numbers }
{
    let [a, b, c, d, e, count, current, pending, places] = numbers;
    Parameters {
        values: [low(a), low(b), low(c), low(d), low(e)],
        count: count as usize,
        current: low(current),
        pending: pending == 1,
        places: places as usize,
    }
}
