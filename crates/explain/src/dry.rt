// The reference machine without a canvas: where bytes lead a frame and the registers, and which byte is refused. Nothing is painted.
ghost use Rattle.std.specs.Prelude.{◌≡◌, ◌+◌, ◌<◌, ◌≤◌};
ghost use Rattle.colours.specs.Palette.{of_table};
ghost use Rattle.explain.specs.Dry.{inked_dry, drawn_dry, data_dry, argument_dry, step_dry, byte_dry, cost_of, dry_from};

use frame::commands::{end_command, extend_by_digit, extend_by_semicolon};
use frame::sizes::{exceeds, sixel_area};
use frame::{Frame, Ground, Kind, Outcome, Progress, VisibleArea};
use reference::{after_sixel, own_effect, parts_values, read, unread};

// Where some bytes led: all were read, or one stays unread.
#[derive(Clone, Copy)]
pub struct Led {
    pub frame: Frame,
    pub consumed: usize,
    pub outcome: Outcome,
}

// A sixel that has passed its limits is read, unless its ink exceeds what is left.
#[tactic(auto, unfolding(crate::specs::Dry::inked_dry))]
fn ink_sixel(frame: Frame, bits: u8, left: usize, area: VisibleArea) -> Progress
    requires { (frame.pen.column + frame.pen.repeat ≤ area.width) × (frame.pen.row + 6 ≤ area.height) × (bits < 64) }
    ensures { result ≡ inked_dry frame bits left area.width area.height }
{
    let ones = bits.count_ones() as usize;
    let repeat = frame.pen.repeat;
    if exceeds(ones, repeat, left) {
        return unread(frame, Outcome::Stopped);
    }
    read(after_sixel(frame, bits, area), ones * repeat)
}

#[tactic(auto, unfolding(crate::specs::Dry::drawn_dry, crate::specs::Dry::drawn_dry_in, frame::specs::Commands::refused_as))]
fn draw_sixel(frame: Frame, ground: Ground, bits: u8, left: usize) -> Progress
    requires { bits < 64 }
    ensures { result ≡ drawn_dry frame ground bits left }
{
    match sixel_area(frame, ground) {
        Ok(area) => ink_sixel(frame, bits, left, area),
        Err(refusal) => unread(frame, Outcome::Refused(refusal)),
    }
}

// A byte while no command is pending.
#[tactic(auto, unfolding(crate::specs::Dry::data_dry))]
fn data_step(frame: Frame, ground: Ground, byte: u8, left: usize) -> Progress
    ensures { result ≡ data_dry frame ground byte left }
{
    if numbers::is_sixel(byte) {
        return draw_sixel(frame, ground, byte - 63, left);
    }
    if numbers::ends_payload(byte) {
        return unread(frame, Outcome::Ended(byte));
    }
    read(own_effect(frame, byte), 0)
}

// A byte while a command is pending.
#[tactic(auto, unfolding(crate::specs::Dry::argument_dry))]
fn argument_step(frame: Frame, ground: Ground, colors: &mut [u32; 256], byte: u8) -> Progress
    ensures { record { progress = result; palette = of_table colors.new } ≡ argument_dry frame ground byte (of_table colors.old) }
{
    if numbers::is_digit(byte) {
        return read(extend_by_digit(frame, byte), 0);
    }
    if numbers::is_skipped(byte) {
        return read(frame, 0);
    }
    if parts_values(byte, frame.command.kind) {
        return read(extend_by_semicolon(frame), 0);
    }
    end_command(frame, ground, colors)
}

#[tactic(auto, unfolding(crate::specs::Dry::step_dry, crate::specs::Dry::step_dry_in))]
fn step(frame: Frame, ground: Ground, colors: &mut [u32; 256], byte: u8, left: usize) -> Progress
    ensures { record { progress = result; palette = of_table colors.new } ≡ step_dry frame ground byte left (of_table colors.old) }
{
    if frame.command.kind == Kind::Data {
        return data_step(frame, ground, byte, left);
    }
    argument_step(frame, ground, colors, byte)
}

// One byte. Where it ends the pending command, it is then read itself.
#[tactic(auto, unfolding(crate::specs::Dry::byte_dry, crate::specs::Dry::then_dry))]
fn byte_step(
    frame: Frame,
    ground: Ground,
    colors: &mut [u32; 256],
    byte: u8,
    left: usize,
) -> Progress
    ensures { record { progress = result; palette = of_table colors.new } ≡ byte_dry frame ground byte left (of_table colors.old) }
{
    let first = step(frame, ground, colors, byte, left);
    if matches!(first.outcome, Outcome::Read) && first.consumed == 0 {
        return data_step(first.frame, ground, byte, left);
    }
    first
}

// What a byte takes of the allowance, where there is one.
#[tactic(auto, unfolding(crate::specs::Dry::cost_of))]
fn cost(metered: bool, ink: usize) -> usize
    ensures { result ≡ cost_of metered ink }
{
    if metered { ink } else { 0 }
}

// Reads bytes until all are read, or one stays unread. Metered, the ink of all is held to the allowance, and else that of each alone.
pub fn read_on(
    frame: Frame,
    ground: Ground,
    colors: &mut [u32; 256],
    bytes: &[u8],
    metered: bool,
    allowance: usize,
) -> Led
    ensures { result ≡ dry_from metered ground bytes.now 0 allowance frame (of_table colors.old) }
{
    let mut now = frame;
    let mut consumed = 0;
    let mut left = allowance;
    for &byte in bytes {
        let read = byte_step(now, ground, colors, byte, left);
        now = read.frame;
        match read.outcome {
            Outcome::Read => {
                consumed += 1;
                left -= cost(metered, read.ink);
            }
            outcome => {
                return Led {
                    frame: now,
                    consumed,
                    outcome,
                };
            }
        }
    }
    Led {
        frame: now,
        consumed,
        outcome: Outcome::Read,
    }
}
