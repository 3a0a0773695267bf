// A session of a whole DCS sequence in the caller's memory: 48 numbers and 256 registers, as a payload session has them.
ghost use Rattle.std.specs.Prelude.{◌≡◌};
ghost use Rattle.owlgantry.specs.Sessions.{dcs_opened, dcs_fed, dcs_finished};

use crate::answers::{dcs_report, finish_report, number_or_zero};
use crate::report::{hand_over, refusal_number};
use colours::marks::begin;
use dcs::kernel::feeding::feed;
use dcs::kernel::finishing::finish;
use dcs::kernel::opening::open;
use dcs::memory::{core_from, numbers_of, phase_from};
use frame::Limits;
use payload::codes::life_from;
use payload::memory::{frame_from, setup_from};
use payload::places;

// Opens a session for a canvas of `length` bytes, with a copy of the owner's registers, their colours and marks.
// Answers 0, or 11.
pub fn owlgantry_raw_dcs_open(
    width: usize,
    height: usize,
    repeats: usize,
    pixels: usize,
    stride: usize,
    length: usize,
    palette: &[u32; 256],
    session: &mut [u64; 48],
    registers: &mut [u32; 256],
) -> u64
    ensures { (result, session.new, registers.new)
        ≡ dcs_opened (record { width = width; height = height; repeats = repeats; pixels = pixels }) stride length palette.now }
{
    let limits = Limits {
        width,
        height,
        repeats,
        pixels,
    };
    *registers = *palette;
    begin(registers);
    let opened = open(limits, stride, registers, length);
    *session = numbers_of(opened.session);
    number_or_zero(opened.answer)
}

// Reads bytes. Answers 0 or the refusal's number, and reports four numbers: how the call went (0: all bytes read, 1: stopped for ink,
// 2: complete, 3: cancelled, 4: interrupted), bytes consumed, ink, and the byte that cancelled or interrupted the sequence. On a
// refusal they are 0.
pub fn owlgantry_raw_dcs_feed(
    session: &mut [u64; 48],
    registers: &mut [u32; 256],
    canvas: &mut [u8],
    bytes: &[u8],
    allowance: usize,
    report: &mut [u64; 4],
) -> u64
    ensures { (result, session.new, registers.new, canvas.new, report.new)
        ≡ dcs_fed session.old registers.old canvas.old bytes.now allowance }
{
    let before = core_from(session);
    let fed = feed(before, registers, canvas, bytes, allowance);
    let answer = fed.answer;
    *session = numbers_of(fed.session);
    *report = dcs_report(answer);
    number_or_zero(answer)
}

// Finishes a sequence that has come to its end, as a payload session is finished.
pub fn owlgantry_raw_dcs_finish(
    session: &mut [u64; 48],
    registers: &[u32; 256],
    canvas: &mut [u8],
    palette: &mut [u32; 256],
    report: &mut [u64; 11],
) -> u64
    ensures { (result, session.new, palette.new, canvas.new, report.new)
        ≡ dcs_finished session.old registers.now palette.old canvas.old }
{
    let life = life_from(session[places::LIFE]);
    let phase = phase_from(session[places::PHASE]);
    let mut after = *registers;
    let answer = finish(
        setup_from(session),
        life,
        frame_from(session),
        phase,
        &mut after,
        canvas,
    );
    *session = [0; 48];
    hand_over(answer, &after, palette);
    *report = finish_report(answer);
    refusal_number(answer)
}
