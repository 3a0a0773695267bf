// Where each of a session's numbers lies among the 48 in a caller's memory. `memory` reads a payload session by these places and writes it
// as one array in their order; 34 to 43 are a DCS session's own.
pub const LIMIT_WIDTH: usize = 0;

pub const LIMIT_HEIGHT: usize = 1;

pub const LIMIT_REPEATS: usize = 2;

pub const LIMIT_PIXELS: usize = 3;

pub const STRIDE: usize = 4;

pub const ROWS: usize = 5;

pub const BACKGROUND: usize = 6;

pub const LENGTH: usize = 7;

pub const P1: usize = 8;

pub const P2: usize = 9;

pub const LIFE: usize = 10;

pub const PEN_COLUMN: usize = 11;

pub const PEN_ROW: usize = 12;

pub const PEN_REPEAT: usize = 13;

pub const PEN_REGISTER: usize = 14;

pub const PEN_COLOR: usize = 15;

pub const AREA_WIDTH: usize = 16;

pub const AREA_HEIGHT: usize = 17;

pub const EXTENT_RIGHT: usize = 18;

pub const EXTENT_BOTTOM: usize = 19;

pub const RATIO: usize = 20;

pub const RASTER_WIDTH: usize = 21;

pub const RASTER_HEIGHT: usize = 22;

pub const KIND: usize = 23;

pub const NUMBER: usize = 24;

// The pending command's values, in nine numbers.
pub const VALUE_0: usize = 25;

pub const VALUE_1: usize = 26;

pub const VALUE_2: usize = 27;

pub const VALUE_3: usize = 28;

pub const VALUE_4: usize = 29;

pub const VALUE_5: usize = 30;

pub const VALUE_6: usize = 31;

pub const VALUE_7: usize = 32;

pub const VALUE_8: usize = 33;

// A DCS session's phase.
pub const PHASE: usize = 34;

// The values of its header, in nine numbers.
pub const HEADER_0: usize = 35;

pub const HEADER_1: usize = 36;

pub const HEADER_2: usize = 37;

pub const HEADER_3: usize = 38;

pub const HEADER_4: usize = 39;

pub const HEADER_5: usize = 40;

pub const HEADER_6: usize = 41;

pub const HEADER_7: usize = 42;

pub const HEADER_8: usize = 43;

// How many definitions had a held value, in a session of either kind.
pub const HELD: usize = 44;
