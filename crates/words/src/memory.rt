// What is told of a refusal as seven numbers, for a caller over the C ABI: the refusal's number; 1 where there is a place, else 0; the place;
// what ran short (0 nothing, 1 repeats, 2 columns, 3 rows, 4 pixels); how much was needed; 1 for more than that, else 0; how much is allowed.
ghost use Rattle.std.specs.Prelude.{◌≡◌};
ghost use Rattle.text.specs.Text.{put};
ghost use Rattle.words.specs.Memory.{thing_number, place_numbers, need_numbers, numbers_of, refusal_from, thing_from, place_from, need_from, text_of};

use crate::{Shortage, Telling, Thing, put_refusal};
use frame::Refusal;

#[tactic(auto, unfolding(crate::specs::Memory::thing_number))]
// Kept: numbers for things and refusals, since what is told goes to C as seven numbers (`owlgantry_raw_words`).
fn thing_number(thing: Thing) -> u64
    ensures { result ≡ thing_number thing }
{
    match thing {
        Thing::Repeats => 1,
        Thing::Columns => 2,
        Thing::Rows => 3,
        Thing::Pixels => 4,
    }
}

#[tactic(auto, unfolding(crate::specs::Memory::place_numbers))]
fn place_numbers(place: Option<usize>) -> [u64; 2]
    ensures { result ≡ place_numbers place }
{
    match place {
        None => [0, 0],
        Some(offset) => [1, offset as u64],
    }
}

#[tactic(auto, unfolding(crate::specs::Memory::need_numbers))]
fn need_numbers(need: Option<Shortage>) -> [u64; 4]
    ensures { result ≡ need_numbers need }
{
    match need {
        None => [0; 4],
        Some(short) => [
            thing_number(short.thing),
            short.needed,
            short.more.into(),
            short.allowed,
        ],
    }
}

// The seven numbers of what is told (rule 5.11).
#[tactic(auto, using(crate::proofs::MemoryLaws::numbers_listed), unfolding(crate::specs::Memory::numbers_of))]
pub fn numbers_of(telling: Telling) -> [u64; 7]
    ensures { result ≡ numbers_of telling }
{
    let [has_place, place] = place_numbers(telling.place);
    let [thing, needed, more, allowed] = need_numbers(telling.need);
    [
        frame::number(telling.refusal).into(),
        has_place,
        place,
        thing,
        needed,
        more,
        allowed,
    ]
}

// The refusal of a number from 1 to 14; no other has one.
fn refusal_from(number: u64) -> Option<Refusal>
    ensures { result ≡ refusal_from number }
{
    match number {
        1 => Some(Refusal::Introducer),
        2 => Some(Refusal::HeaderEnded),
        3 => Some(Refusal::HeaderByte),
        4 => Some(Refusal::Repeat),
        5 => Some(Refusal::Size),
        6 => Some(Refusal::Pixels),
        7 => Some(Refusal::Room),
        8 => Some(Refusal::Unfinished),
        9 => Some(Refusal::Failed),
        10 => Some(Refusal::FinalSize),
        11 => Some(Refusal::Opening),
        12 => Some(Refusal::Canvas),
        13 => Some(Refusal::Allowance),
        14 => Some(Refusal::Buffer),
        _ => None,
    }
}

// The thing of a number from 1 to 4; no other has one.
fn thing_from(number: u64) -> Option<Thing>
    ensures { result ≡ thing_from number }
{
    match number {
        1 => Some(Thing::Repeats),
        2 => Some(Thing::Columns),
        3 => Some(Thing::Rows),
        4 => Some(Thing::Pixels),
        _ => None,
    }
}

#[tactic(auto, unfolding(crate::specs::Memory::place_from))]
fn place_from(flag: u64, offset: u64) -> Option<usize>
    ensures { result ≡ place_from flag offset }
{
    (flag == 1).then_some(offset as usize)
}

#[tactic(auto, unfolding(crate::specs::Memory::need_from, crate::specs::Memory::short_from))]
fn need_from(numbers: &[u64; 7]) -> Option<Shortage>
    ensures { result ≡ need_from numbers.now }
{
    let thing = thing_from(numbers[3])?;
    Some(Shortage {
        needed: numbers[4],
        allowed: numbers[6],
        thing,
        more: numbers[5] == 1,
    })
}

// Writes the line of what seven numbers tell, as `put_refusal` does; where no refusal has the first, nothing is written (rule 5.11).
// Kept: as `put_refusal`.
#[tactic(auto, unfolding(crate::specs::Memory::text_of, crate::specs::Memory::line_of, crate::specs::Memory::telling_from, crate::specs::Memory::told_of, text::specs::Text::put))]
pub fn put_numbers(out: &mut [u8], at: usize, numbers: &[u64; 7]) -> usize
    ensures { (result, out.new) ≡ put (text_of numbers.now) (at, out.old) }
{
    let Some(refusal) = refusal_from(numbers[0]) else {
        return at;
    };
    let place = place_from(numbers[1], numbers[2]);
    let need = need_from(numbers);
    put_refusal(
        out,
        at,
        Telling {
            refusal,
            place,
            need,
        },
    )
}
