// What the program holds from line to line.
use colours::Palette;

// The session that is open.
// Kept: three states that an order tells apart at once; an Option of two would be matched twice.
#[derive(Clone, Copy)]
pub(crate) enum Open {
    Nothing,
    Payload(payload::Session),
    Dcs(dcs::Session),
}

// The owner's palette; the session; the canvas's length, and how many of its first bytes are lent.
#[derive(Clone, Copy)]
pub(crate) struct State {
    pub(crate) palette: Palette,
    pub(crate) open: Open,
    pub(crate) length: usize,
    pub(crate) lent: usize,
}

impl State {
    // The standard palette, no session and no canvas.
    pub(crate) fn at_start() -> State {
        State {
            palette: Palette::standard(),
            open: Open::Nothing,
            length: 0,
            lent: 0,
        }
    }

    // No session, and a palette of the owner's.
    pub(crate) fn close(&mut self, palette: Palette) {
        self.palette = palette;
        self.open = Open::Nothing;
    }

    pub(crate) fn is_busy(&self) -> bool {
        !matches!(self.open, Open::Nothing)
    }
}
