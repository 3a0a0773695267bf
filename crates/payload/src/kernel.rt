// A payload session in parts, without its palette, which is lent beside them: what reading works on. Bytes change the life and the frame
// alone. The parts are handed over one by one: as one struct they would carry padding bytes along, which a call is slowed by.
pub mod feeding;
pub mod finishing;
pub mod opening;

ghost use Rattle.std.specs.Prelude.{◌≡◌};
ghost use Rattle.payload.specs.Core.{setup_of, over};

use crate::{Life, Session, Settings};
use colours::Palette;
use frame::{Frame, Ground};

// What is settled when the payload begins.
#[derive(Clone, Copy)]
pub struct Setup {
    pub ground: Ground,
    pub length: usize,
    pub settings: Settings,
}

pub fn setup_of(session: Session) -> Setup
    ensures { result ≡ setup_of session }
{
    Setup {
        ground: session.ground,
        length: session.length,
        settings: session.settings,
    }
}

pub fn life_of(session: Session) -> Life
    ensures { result ≡ session.life }
{
    session.life
}

pub fn frame_of(session: Session) -> Frame
    ensures { result ≡ session.frame }
{
    session.frame
}

pub fn palette_of(session: Session) -> Palette
    ensures { result ≡ session.palette }
{
    session.palette
}

// The session of these parts.
pub fn session_of(setup: Setup, life: Life, frame: Frame, palette: Palette) -> Session
    ensures { result ≡ over setup life frame palette }
{
    Session {
        ground: setup.ground,
        length: setup.length,
        settings: setup.settings,
        life,
        frame,
        palette,
    }
}
