// A session as 48 numbers and 256 registers, for a caller that keeps it in its own memory. Any numbers are a session: one that was
// never opened here answers as its fields say, and 48 zeros are a failed one. 34 to 43 are those of a DCS session.
ghost use Rattle.std.specs.Prelude.{◌≡◌};
ghost use Rattle.colours.specs.declared.Palette.{Palette};
ghost use Rattle.payload.specs.Core.{over};
ghost use Rattle.payload.specs.Memory.{ground_from, settings_from, pen_from, area_from, extent_from, raster_from, command_from, frame_from, numbers_of, setup_from};

use crate::codes::{
    color_from, color_number, given_from, given_number, kind_from, kind_number, life_number,
};
use crate::kernel::Setup;
use crate::{Life, Settings, places};
use frame::{Command, Extent, Frame, Ground, Limits, Pen, Raster, VisibleArea};
use numbers::memory::{numbers_of as parameters_numbers, parameters_from};

// ---- a session's parts

fn ground_from(numbers: &[u64; 48]) -> Ground
    ensures { result ≡ ground_from numbers.now }
{
    let limits = Limits {
        width: numbers[places::LIMIT_WIDTH] as usize,
        height: numbers[places::LIMIT_HEIGHT] as usize,
        repeats: numbers[places::LIMIT_REPEATS] as usize,
        pixels: numbers[places::LIMIT_PIXELS] as usize,
    };
    let background = color_from(numbers[places::BACKGROUND]);
    Ground {
        limits,
        stride: numbers[places::STRIDE] as usize,
        rows: numbers[places::ROWS] as usize,
        background,
    }
}

fn settings_from(numbers: &[u64; 48]) -> Settings
    ensures { result ≡ settings_from numbers.now }
{
    Settings {
        p1: given_from(numbers[places::P1]),
        p2: given_from(numbers[places::P2]),
    }
}

fn pen_from(numbers: &[u64; 48]) -> Pen
    ensures { result ≡ pen_from numbers.now }
{
    let color = color_from(numbers[places::PEN_COLOR]);
    Pen {
        column: numbers[places::PEN_COLUMN] as usize,
        row: numbers[places::PEN_ROW] as usize,
        repeat: numbers[places::PEN_REPEAT] as usize,
        register: numbers[places::PEN_REGISTER] as usize,
        color,
    }
}

fn area_from(numbers: &[u64; 48]) -> VisibleArea
    ensures { result ≡ area_from numbers.now }
{
    VisibleArea {
        width: numbers[places::AREA_WIDTH] as usize,
        height: numbers[places::AREA_HEIGHT] as usize,
    }
}

fn extent_from(numbers: &[u64; 48]) -> Extent
    ensures { result ≡ extent_from numbers.now }
{
    Extent {
        right: numbers[places::EXTENT_RIGHT] as usize,
        bottom: numbers[places::EXTENT_BOTTOM] as usize,
    }
}

fn raster_from(numbers: &[u64; 48]) -> Raster
    ensures { result ≡ raster_from numbers.now }
{
    Raster {
        ratio: (numbers[places::RATIO] % 256) as u8,
        width: numbers[places::RASTER_WIDTH] as usize,
        height: numbers[places::RASTER_HEIGHT] as usize,
    }
}

fn command_from(numbers: &[u64; 48]) -> Command
    ensures { result ≡ command_from numbers.now }
{
    let values = [
        numbers[places::VALUE_0],
        numbers[places::VALUE_1],
        numbers[places::VALUE_2],
        numbers[places::VALUE_3],
        numbers[places::VALUE_4],
        numbers[places::VALUE_5],
        numbers[places::VALUE_6],
        numbers[places::VALUE_7],
        numbers[places::VALUE_8],
    ];
    let parameters = parameters_from(values);
    let kind = kind_from(numbers[places::KIND]);
    Command {
        kind,
        number: numbers[places::NUMBER],
        parameters,
    }
}

// ---- a session

// Ten zeros are where a DCS session has its own numbers.
pub fn numbers_of(setup: Setup, life: Life, frame: Frame) -> [u64; 48]
    ensures { (p : Palette) → result ≡ numbers_of (over setup life frame p) }
{
    let ground = setup.ground;
    let settings = setup.settings;
    let pen = frame.pen;
    let command = frame.command;
    let values = parameters_numbers(command.parameters);
    [
        ground.limits.width as u64,
        ground.limits.height as u64,
        ground.limits.repeats as u64,
        ground.limits.pixels as u64,
        ground.stride as u64,
        ground.rows as u64,
        color_number(ground.background),
        setup.length as u64,
        given_number(settings.p1),
        given_number(settings.p2),
        life_number(life),
        pen.column as u64,
        pen.row as u64,
        pen.repeat as u64,
        pen.register as u64,
        color_number(pen.color),
        frame.area.width as u64,
        frame.area.height as u64,
        frame.extent.right as u64,
        frame.extent.bottom as u64,
        frame.raster.ratio as u64,
        frame.raster.width as u64,
        frame.raster.height as u64,
        kind_number(command.kind),
        command.number,
        values[0],
        values[1],
        values[2],
        values[3],
        values[4],
        values[5],
        values[6],
        values[7],
        values[8],
        0,
        0,
        0,
        0,
        0,
        0,
        0,
        0,
        0,
        0,
        frame.held,
        0,
        0,
        0,
    ]
}

pub fn setup_from(numbers: &[u64; 48]) -> Setup
    ensures { result ≡ setup_from numbers.now }
{
    Setup {
        ground: ground_from(numbers),
        length: numbers[places::LENGTH] as usize,
        settings: settings_from(numbers),
    }
}

pub fn frame_from(numbers: &[u64; 48]) -> Frame
    ensures { result ≡ frame_from numbers.now }
{
    Frame {
        pen: pen_from(numbers),
        area: area_from(numbers),
        extent: extent_from(numbers),
        raster: raster_from(numbers),
        held: numbers[places::HELD],
        command: command_from(numbers),
    }
}
