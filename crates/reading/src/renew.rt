// The frame made anew from its numbers. Copied whole it would carry its padding bytes along, and a loop that carries those from
// turn to turn takes three times as long.
// Kept: (b) tried without it, a byte a call takes 1.1 to 1.4 times as long, and a picture of 16 x 12 pixels 1.4 times (docs/SPEED.md).
ghost use Rattle.std.specs.Prelude.{◌≡◌};

use frame::{Command, Extent, Frame, Pen, Raster, VisibleArea};

pub fn renewed_pen(pen: Pen) -> Pen
    ensures { result ≡ pen }
{
    let color = pen.color;
    Pen {
        column: pen.column,
        row: pen.row,
        repeat: pen.repeat,
        register: pen.register,
        color,
    }
}

fn renewed_area(area: VisibleArea) -> VisibleArea
    ensures { result ≡ area }
{
    VisibleArea {
        width: area.width,
        height: area.height,
    }
}

fn renewed_extent(extent: Extent) -> Extent
    ensures { result ≡ extent }
{
    Extent {
        right: extent.right,
        bottom: extent.bottom,
    }
}

fn renewed_raster(raster: Raster) -> Raster
    ensures { result ≡ raster }
{
    Raster {
        ratio: raster.ratio,
        width: raster.width,
        height: raster.height,
    }
}

fn renewed_command(command: Command) -> Command
    ensures { result ≡ command }
{
    Command {
        kind: command.kind,
        number: command.number,
        parameters: command.parameters.renewed(),
    }
}

pub fn renewed(frame: Frame) -> Frame
    ensures { result ≡ frame }
{
    Frame {
        pen: renewed_pen(frame.pen),
        area: renewed_area(frame.area),
        extent: renewed_extent(frame.extent),
        raster: renewed_raster(frame.raster),
        held: frame.held,
        command: renewed_command(frame.command),
    }
}
