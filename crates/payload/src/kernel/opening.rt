// How a session begins.
ghost use Rattle.std.specs.Prelude.{◌≡◌, ◌≤◌, true, length};
ghost use Rattle.colours.specs.Palette.{of_table};
ghost use Rattle.payload.specs.Core.{opened_over, setup_for};
ghost use Rattle.payload.specs.Session.{clear_for, background_for, blank_frame, opening_for, first_life, opened_if, first_painted, opened_on};

use crate::kernel::Setup;
use crate::refusals::may_open;
use crate::{Life, Settings};
use frame::{Command, Extent, Frame, Ground, Kind, Limits, Pen, Raster, Refusal, VisibleArea};
use numbers::Parameters;

// An opening's answer and the session, which is a failed one where the opening is refused.
#[derive(Clone, Copy)]
pub struct Opened {
    pub answer: Result<(), Refusal>,
    pub setup: Setup,
    pub life: Life,
    pub frame: Frame,
}

pub(crate) fn is_transparent(p2: Option<u16>) -> bool
    ensures { result ≡ clear_for p2 }
{
    p2 == Some(1)
}

pub(crate) fn background_for(colors: &[u32; 256], p2: Option<u16>) -> [u8; 4]
    ensures { result ≡ background_for (of_table colors.now) p2 }
{
    if is_transparent(p2) {
        return [0, 0, 0, 0];
    }
    colours::rgb_bytes(colors, 0)
}

pub fn blank_frame(colors: &[u32; 256]) -> Frame
    ensures { result ≡ blank_frame (of_table colors.now) }
{
    let color = colours::rgb_bytes(colors, 0);
    let parameters = Parameters::new(0);
    Frame {
        pen: Pen {
            column: 0,
            row: 0,
            repeat: 1,
            register: 0,
            color,
        },
        area: VisibleArea {
            width: 1,
            height: 1,
        },
        extent: Extent {
            right: 0,
            bottom: 0,
        },
        raster: Raster {
            ratio: 0,
            width: 0,
            height: 0,
        },
        held: 0,
        command: Command {
            kind: Kind::Data,
            number: 0,
            parameters,
        },
    }
}

// What a session keeps from its opening.
fn new_setup(
    limits: Limits,
    stride: usize,
    length: usize,
    settings: Settings,
    colors: &[u32; 256],
) -> Setup
    ensures { result ≡ setup_for limits stride length settings (of_table colors.now) }
{
    let background = background_for(colors, settings.p2);
    let ground = Ground {
        limits,
        stride,
        rows: canvas::rows(length, stride),
        background,
    };
    Setup {
        ground,
        length,
        settings,
    }
}

// An opening's answer, by whether it may be.
fn opening_for(may: bool) -> Result<(), Refusal>
    ensures { result ≡ opening_for may }
{
    if may {
        return Ok(());
    }
    Err(Refusal::Opening)
}

// The life of its session.
fn first_life(may: bool) -> Life
    ensures { result ≡ first_life may }
{
    if may {
        return Life::Live;
    }
    Life::Failed
}

// An opening, by whether it may be: the session is a failed one where it may not.
pub(crate) fn open_if(
    may: bool,
    limits: Limits,
    stride: usize,
    length: usize,
    settings: Settings,
    colors: &[u32; 256],
) -> Opened
    ensures { opened_over result (of_table colors.now) ≡ opened_if may limits stride length settings (of_table colors.now) }
{
    let life = first_life(may);
    Opened {
        answer: opening_for(may),
        setup: new_setup(limits, stride, length, settings, colors),
        life,
        frame: blank_frame(colors),
    }
}

// Pixel (0, 0) gets the background, where that is due.
// Asks that the canvas has a pixel where one is due.
pub(crate) fn paint_if(due: bool, canvas: &mut [u8], background: [u8; 4])
    requires { due ≡ true → 4 ≤ length canvas.old }
    ensures { canvas.new ≡ first_painted due background canvas.old }
{
    if due {
        canvas::first_pixel(canvas, background);
    }
}

// Opens a session on a canvas of `stride` pixels a row, with the registers that it is to start from. Pixel (0, 0) gets the background.
pub fn open(
    limits: Limits,
    stride: usize,
    settings: Settings,
    colors: &[u32; 256],
    canvas: &mut [u8],
) -> Opened
    ensures { (opened_over result (of_table colors.now), canvas.new)
        ≡ opened_on limits stride settings (of_table colors.now) canvas.old }
{
    let length = canvas.len();
    let may = may_open(limits, stride, length);
    paint_if(may, canvas, background_for(colors, settings.p2));
    open_if(may, limits, stride, length, settings, colors)
}
