// Commands with an argument: how one begins, goes on and ends.
ghost use Rattle.std.specs.Prelude.{◌≡◌, ◌≤◌, min};
ghost use Rattle.numbers.specs.Step.{finished};
ghost use Rattle.colours.specs.Palette.{of_table};
ghost use Rattle.frame.specs.Commands.{with_command, begun, by_digit, by_semicolon, no_command, settled_as, refused_as, repeat_ended, defining_by, redefining_by, more_held, palette_after, with_color, selected_in, raster_ended_in, Ended, ended};

use crate::rasters::{Measured, measure};
use crate::{Command, Frame, Ground, Kind, Outcome, Progress, Refusal};
use numbers::Parameters;

// A command begins; `places` is how many values it has.
#[tactic(auto, unfolding(crate::specs::Commands::begun, crate::specs::Commands::with_command))]
pub fn begin_command(frame: Frame, kind: Kind, places: usize) -> Frame
    ensures { result ≡ begun frame kind places }
{
    let command = Command {
        kind,
        number: 0,
        parameters: Parameters::new(places),
    };
    Frame { command, ..frame }
}

// A digit of the argument.
pub fn extend_by_digit(frame: Frame, byte: u8) -> Frame
    ensures { result ≡ with_command frame (by_digit frame.command byte) }
{
    let mut command = frame.command;
    if command.kind == Kind::Repeat {
        command.number = numbers::more_repeat(command.number, byte);
    } else {
        command.parameters = command.parameters.digit(byte);
    }
    Frame { command, ..frame }
}

// A `;` of the argument.
#[tactic(auto, unfolding(crate::specs::Commands::with_command, crate::specs::Commands::by_semicolon))]
pub fn extend_by_semicolon(frame: Frame) -> Frame
    ensures { result ≡ with_command frame (by_semicolon frame.command) }
{
    let mut command = frame.command;
    command.parameters = command.parameters.semicolon();
    Frame { command, ..frame }
}

// The frame with no command pending.
#[tactic(auto, unfolding(crate::specs::Commands::with_command, crate::specs::Commands::no_command))]
pub fn without_command(frame: Frame) -> Frame
    ensures { result ≡ with_command frame no_command }
{
    let command = Command {
        kind: Kind::Data,
        number: 0,
        parameters: Parameters::new(0),
    };
    Frame { command, ..frame }
}

// No command is pending any more.
#[tactic(auto, unfolding(crate::specs::Commands::with_command, crate::specs::Commands::settled_as))]
pub fn settled(frame: Frame) -> Progress
    ensures { result ≡ settled_as frame.pen frame.area frame.extent frame.raster frame.held }
{
    Progress {
        frame: without_command(frame),
        consumed: 0,
        ink: 0,
        outcome: Outcome::Read,
    }
}

#[tactic(auto, unfolding(crate::specs::Commands::refused_as, crate::specs::Commands::unread_as))]
fn refused(frame: Frame, refusal: Refusal) -> Progress
    ensures { result ≡ refused_as frame refusal }
{
    Progress {
        frame,
        consumed: 0,
        ink: 0,
        outcome: Outcome::Refused(refusal),
    }
}

// A repeat of 0 means 1.
#[tactic(auto, unfolding(crate::specs::Commands::repeat_ended, crate::specs::Commands::with_repeat))]
pub fn end_repeat(frame: Frame, ground: Ground) -> Progress
    ensures { result ≡ repeat_ended frame ground }
{
    let number = frame.command.number as usize;
    if ground.limits.repeats < number {
        return refused(frame, Refusal::Repeat);
    }
    let mut next = frame;
    next.pen.repeat = number.max(1);
    settled(next)
}

// Space 1 or 2 redefines the register. Answers whether one of the values was held.
// Inner: asks for values that a signed number can hold.
#[tactic(auto, unfolding(crate::specs::Commands::defining_by, crate::specs::Commands::held_by, crate::specs::Commands::defined_by))]
pub fn define(colors: &mut [u32; 256], register: usize, space: u32, x: u32, y: u32, z: u32) -> bool
    requires { (x ≤ 2147483647) × (y ≤ 2147483647) × (z ≤ 2147483647) }
    ensures { (result, of_table colors.new) ≡ defining_by (of_table colors.old) register space x y z }
{
    if space == 1 {
        return colours::define_hls(colors, register, x as i32, y as i32, z as i32);
    }
    if space == 2 {
        return colours::define_rgb(colors, register, x as i32, y as i32, z as i32);
    }
    false
}

// Five values may redefine the register.
fn redefine(colors: &mut [u32; 256], register: usize, parameters: Parameters) -> bool
    ensures { (result, of_table colors.new) ≡ redefining_by (of_table colors.old) register parameters }
{
    if parameters.count() == 5 {
        let space = parameters.value(1);
        let x = parameters.value(2);
        let y = parameters.value(3);
        let z = parameters.value(4);
        return define(colors, register, space, x, y, z);
    }
    false
}

// The register that a value selects.
pub fn register_at(value: u32) -> usize
    ensures { result ≡ min value 255 }
{
    value.min(255) as usize
}

// The register that a colour command selects, its colour then, and whether the command defined it with a held value.
#[derive(Clone, Copy)]
pub struct Selected {
    pub register: usize,
    pub color: [u8; 4],
    pub held: bool,
}

// Redefines and selects the register. Whoever ends a command calls this and `measure` with the few numbers
// that matter: handed over, the frame would be spilled to memory while bytes are read.
pub fn select(begun: Parameters, colors: &mut [u32; 256]) -> Selected
    ensures { (of_table colors.new ≡ palette_after (of_table colors.old) (finished begun))
        × (result ≡ selected_in (of_table colors.new) (finished begun)) }
{
    let parameters = begun.finish();
    let register = register_at(parameters.value(0));
    let held = redefine(colors, register, parameters);
    let color = colours::rgb_bytes(colors, register);
    Selected {
        register,
        color,
        held,
    }
}

// One definition more where it was held, up to what a number can hold.
#[tactic(auto, unfolding(crate::specs::Commands::more_held))]
pub fn more_held(count: u64, held: bool) -> u64
    ensures { result ≡ more_held count held }
{
    count.saturating_add(u64::from(held))
}

#[tactic(auto, unfolding(crate::specs::Commands::with_color, crate::specs::Commands::settled_as))]
pub fn colored(frame: Frame, selected: Selected) -> Progress
    ensures { result ≡ settled_as (with_color frame.pen selected.register selected.color) frame.area frame.extent frame.raster
        (more_held frame.held selected.held) }
{
    let mut next = frame;
    next.pen.register = selected.register;
    let color = selected.color;
    next.pen.color = color;
    next.held = more_held(frame.held, selected.held);
    settled(next)
}

#[tactic(auto, unfolding(crate::specs::Commands::raster_ended_in))]
pub fn rastered(frame: Frame, measured: Result<Measured, Refusal>) -> Progress
    ensures { result ≡ raster_ended_in measured frame }
{
    match measured {
        Ok(Measured::Sizeless(raster)) => settled(Frame { raster, ..frame }),
        Ok(Measured::Sized { raster, area }) => settled(Frame {
            raster,
            area,
            ..frame
        }),
        Err(refusal) => refused(frame, refusal),
    }
}

// Carries the pending command out. What a raster grows is painted by whoever calls. The hint makes it part of the loop, though explaining a
// refusal calls it too.
#[inline(always)]
pub fn end_command(frame: Frame, ground: Ground, colors: &mut [u32; 256]) -> Progress
    ensures { record { progress = result; palette = of_table colors.new } ≡ ended frame ground (of_table colors.old) }
{
    match frame.command.kind {
        Kind::Data => settled(frame),
        Kind::Repeat => end_repeat(frame, ground),
        Kind::Color => colored(frame, select(frame.command.parameters, colors)),
        Kind::Raster => rastered(
            frame,
            measure(frame.command.parameters, frame.raster, frame.area, ground),
        ),
    }
}
