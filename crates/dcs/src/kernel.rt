// A DCS session in parts, without its palette, which is lent beside them: what reading works on.
pub mod feeding;
pub mod finishing;
pub mod opening;

ghost use Rattle.std.specs.Prelude.{◌≡◌};
ghost use Rattle.dcs.specs.Core.{core_of, over};

use crate::{Phase, Session};
use colours::Palette;
use frame::Frame;
use numbers::Parameters;
use payload::Life;
use payload::kernel::{
    Setup, frame_of, life_of, palette_of as inner_palette, session_of, setup_of,
};

#[derive(Clone, Copy)]
pub struct Core {
    pub setup: Setup,
    pub life: Life,
    pub frame: Frame,
    pub header: Parameters,
    pub phase: Phase,
}

// All of a session but its palette.
pub fn core_of(session: Session) -> Core
    ensures { result ≡ core_of session }
{
    Core {
        setup: setup_of(session.payload),
        life: life_of(session.payload),
        frame: frame_of(session.payload),
        header: session.header,
        phase: session.phase,
    }
}

pub fn palette_of(session: Session) -> Palette
    ensures { result ≡ session.payload.palette }
{
    inner_palette(session.payload)
}

// The session that these are the parts of.
pub fn with_palette(core: Core, palette: Palette) -> Session
    ensures { result ≡ over core palette }
{
    Session {
        payload: session_of(core.setup, core.life, core.frame, palette),
        header: core.header,
        phase: core.phase,
    }
}
