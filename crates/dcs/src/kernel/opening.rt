// How a session begins.
ghost use Rattle.std.specs.Prelude.{◌≡◌};
ghost use Rattle.colours.specs.Palette.{of_table};
ghost use Rattle.dcs.specs.Core.{opened_over};
ghost use Rattle.dcs.specs.Session.{opened_on};

use crate::Phase;
use crate::kernel::Core;
use frame::Limits;
use header::Place;
use numbers::Parameters;
use payload::{Opened, deferred};

// Opens a session for a canvas of `length` bytes and `stride` pixels a row, with the registers that it is to start from. Nothing is
// written before `q`.
pub fn open(limits: Limits, stride: usize, colors: &[u32; 256], length: usize) -> Opened<Core>
    ensures { opened_over result (of_table colors.now) ≡ opened_on limits stride (of_table colors.now) length }
{
    let opened = deferred::reserve(limits, stride, colors, length);
    let header = Parameters::new(3);
    Opened {
        answer: opened.answer,
        session: Core {
            setup: opened.setup,
            life: opened.life,
            frame: opened.frame,
            header,
            phase: Phase::Before(Place::Start),
        },
    }
}
