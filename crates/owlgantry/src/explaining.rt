// What a call is refused with, told as seven numbers: the refusal's number; 1 where there is a place, else 0; the place; what ran short (0 nothing,
// 1 repeats, 2 columns, 3 rows, 4 pixels); how much was needed; 1 for more than that, else 0; how much is allowed. Each function answers the number
// that the call itself answers, on a canvas of `length` bytes; where that is 0, all seven are. Nothing else is written: a session is read as it is
// before the call.
ghost use Rattle.std.specs.Prelude.{◌≡◌};
ghost use Rattle.owlgantry.specs.Explaining.{told_numbers, payload_feed_told, payload_finish_told, dcs_feed_told, dcs_finish_told, read_told, words_put};

use dcs::memory::core_from;
use frame::Limits;
use payload::codes::life_from;
use payload::memory::{frame_from, setup_from};
use payload::places;
use words::Telling;
use words::memory::{numbers_of, put_numbers};

fn told_numbers(told: Result<(), Telling>) -> [u64; 7]
    ensures { result ≡ told_numbers told }
{
    match told {
        Ok(()) => [0; 7],
        Err(telling) => numbers_of(telling),
    }
}

// A feed of a payload session. The place is counted from the start of the bytes.
pub fn owlgantry_raw_payload_explain(
    session: &[u64; 48],
    registers: &[u32; 256],
    length: usize,
    bytes: &[u8],
    allowance: usize,
    telling: &mut [u64; 7],
) -> u64
    ensures { (result, telling.new)
        ≡ payload_feed_told session.now registers.now length bytes.now allowance }
{
    let setup = setup_from(session);
    let life = life_from(session[places::LIFE]);
    let frame = frame_from(session);
    let told = explain::payload_session::explain_feed(
        setup, life, frame, registers, length, bytes, allowance,
    );
    let numbers = told_numbers(told);
    *telling = numbers;
    numbers[0]
}

// A finish of a payload session. It is given no byte, and its place is 0: where the bytes before it end.
pub fn owlgantry_raw_payload_explain_finish(
    session: &[u64; 48],
    registers: &[u32; 256],
    length: usize,
    telling: &mut [u64; 7],
) -> u64
    ensures { (result, telling.new) ≡ payload_finish_told session.now registers.now length }
{
    let setup = setup_from(session);
    let life = life_from(session[places::LIFE]);
    let frame = frame_from(session);
    let told = explain::payload_session::explain_finish(setup, life, frame, registers, length);
    let numbers = told_numbers(told);
    *telling = numbers;
    numbers[0]
}

// A feed of a DCS session, as of a payload session.
pub fn owlgantry_raw_dcs_explain(
    session: &[u64; 48],
    registers: &[u32; 256],
    length: usize,
    bytes: &[u8],
    allowance: usize,
    telling: &mut [u64; 7],
) -> u64
    ensures { (result, telling.new)
        ≡ dcs_feed_told session.now registers.now length bytes.now allowance }
{
    let core = core_from(session);
    let told = explain::dcs_session::explain_feed(core, registers, length, bytes, allowance);
    let numbers = told_numbers(told);
    *telling = numbers;
    numbers[0]
}

// A finish of a DCS session, as of a payload session.
pub fn owlgantry_raw_dcs_explain_finish(
    session: &[u64; 48],
    registers: &[u32; 256],
    length: usize,
    telling: &mut [u64; 7],
) -> u64
    ensures { (result, telling.new) ≡ dcs_finish_told session.now registers.now length }
{
    let core = core_from(session);
    let told = explain::dcs_session::explain_finish(core, registers, length);
    let numbers = told_numbers(told);
    *telling = numbers;
    numbers[0]
}

// Reading all at once. The place is counted from the start of the bytes, with whatever stands before the introducer.
pub fn owlgantry_raw_read_explain(
    width: usize,
    height: usize,
    repeats: usize,
    pixels: usize,
    stride: usize,
    length: usize,
    palette: &[u32; 256],
    bytes: &[u8],
    telling: &mut [u64; 7],
) -> u64
    ensures { (result, telling.new)
        ≡ read_told (record { width = width; height = height; repeats = repeats; pixels = pixels }) stride length
        palette.now bytes.now }
{
    let limits = Limits {
        width,
        height,
        repeats,
        pixels,
    };
    let told = explain::whole::explain_read(limits, stride, length, palette, bytes);
    let numbers = told_numbers(told);
    *telling = numbers;
    numbers[0]
}

// Writes the line of English that seven numbers tell to the front of `out`, as much of it as there is room for, and answers how many bytes were
// written. Where no refusal has the first number, that is 0.
pub fn owlgantry_raw_words(telling: &[u64; 7], out: &mut [u8]) -> u64
    ensures { (result, out.new) ≡ words_put telling.now out.old }
{
    put_numbers(out, 0, telling) as u64
}
