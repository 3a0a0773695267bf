// A payload session in the caller's memory: 48 numbers and 256 registers. Any content of them has a stated answer; 48 zeros are a failed
// session, which answers 9. An abort needs no call: the caller drops the session.
ghost use Rattle.std.specs.Prelude.{◌≡◌};
ghost use Rattle.owlgantry.specs.Sessions.{payload_opened, payload_fed, payload_finished};

use crate::answers::{finish_report, number_or_zero, payload_report};
use crate::report::{hand_over, refusal_number};
use colours::marks::begin;
use frame::Limits;
use payload::codes::{given_from, life_from};
use payload::kernel::feeding::feed;
use payload::kernel::finishing::finish;
use payload::kernel::opening::open;
use payload::memory::{frame_from, numbers_of, setup_from};
use payload::{Settings, places};

// Opens a session with a copy of the owner's registers, their colours and marks. A P1 or P2 above 65,535 is a missing one. Answers 0, or 11.
pub fn owlgantry_raw_payload_open(
    width: usize,
    height: usize,
    repeats: usize,
    pixels: usize,
    stride: usize,
    p1: u32,
    p2: u32,
    canvas: &mut [u8],
    palette: &[u32; 256],
    session: &mut [u64; 48],
    registers: &mut [u32; 256],
) -> u64
    ensures { (result, session.new, registers.new, canvas.new)
        ≡ payload_opened (record { width = width; height = height; repeats = repeats; pixels = pixels }) stride p1 p2
        palette.now canvas.old }
{
    let limits = Limits {
        width,
        height,
        repeats,
        pixels,
    };
    let settings = Settings {
        p1: given_from(p1 as u64),
        p2: given_from(p2 as u64),
    };
    *registers = *palette;
    begin(registers);
    let opened = open(limits, stride, settings, registers, canvas);
    *session = numbers_of(opened.setup, opened.life, opened.frame);
    number_or_zero(opened.answer)
}

// Reads bytes. Answers 0 or the refusal's number, and reports four numbers: how the call went (0: all bytes read, 1: stopped for ink,
// 2: ended), bytes consumed, ink, and the byte that ended the payload. On a refusal they are 0.
pub fn owlgantry_raw_payload_feed(
    session: &mut [u64; 48],
    registers: &mut [u32; 256],
    canvas: &mut [u8],
    bytes: &[u8],
    allowance: usize,
    report: &mut [u64; 4],
) -> u64
    ensures { (result, session.new, registers.new, canvas.new, report.new)
        ≡ payload_fed session.old registers.old canvas.old bytes.now allowance }
{
    let setup = setup_from(session);
    let life = life_from(session[places::LIFE]);
    let fed = feed(
        setup,
        life,
        frame_from(session),
        registers,
        canvas,
        bytes,
        allowance,
    );
    let answer = fed.answer;
    // Read once more, where it still lies, so that the call above has nothing of it to keep.
    let kept = setup_from(session);
    *session = numbers_of(kept, fed.life, fed.frame);
    *report = payload_report(answer);
    number_or_zero(answer)
}

// Carries the pending command out. Answers 0 or the refusal's number. The palette gets the session's colours and marks where there is a
// picture, and the session's numbers are 0 afterwards: a finish hands back no session. Reports eleven numbers, 0 on a refusal: width,
// height, right, bottom; the ratio's kind and number (0: left to P1, which is missing; 1: left to P1's number; 2: the raster's, number : 1);
// 1 for a transparent background; how many registers the picture defined; the declared width and height, each 0 where there is none; and how
// many definitions had a held value.
pub fn owlgantry_raw_payload_finish(
    session: &mut [u64; 48],
    registers: &[u32; 256],
    canvas: &mut [u8],
    palette: &mut [u32; 256],
    report: &mut [u64; 11],
) -> u64
    ensures { (result, session.new, palette.new, canvas.new, report.new)
        ≡ payload_finished session.old registers.now palette.old canvas.old }
{
    let mut after = *registers;
    let life = life_from(session[places::LIFE]);
    let answer = finish(
        setup_from(session),
        life,
        frame_from(session),
        &mut after,
        canvas,
    );
    *session = [0; 48];
    hand_over(answer, &after, palette);
    *report = finish_report(answer);
    refusal_number(answer)
}
