// The kinds of bytes, and the numbers that stand in commands (docs/RULES.md, section 2).
#![tactic(auto)]

pub mod memory;

ghost use Rattle.std.specs.Prelude.{◌≡◌, ◌-◌};
ghost use Rattle.numbers.specs.Bytes.{skipped, digit, sixel, ends};
ghost use Rattle.numbers.specs.Values.{held, held16};
ghost use Rattle.numbers.specs.Step.{opened, with_digit, with_semicolon, pushed, stored, finished, value_at, repeated};

// Where colour, raster and header numbers saturate, and where P1 to P3 then do.
const NUMBER_LIMIT: u64 = 2_147_483_647;

const HEADER_LIMIT: u32 = 65_535;

// Where a repeat's number saturates: above every repeat limit that can be opened, and reached by one more digit after any
// number above `REPEAT_LAST`.
const REPEAT_CEILING: u64 = 1_000_000_000_010;

const REPEAT_LAST: u64 = 100_000_000_000;

// The most values that a command has.
const PLACES: usize = 5;

#[tactic(auto, unfolding(crate::specs::Bytes::skipped))]
pub fn is_skipped(byte: u8) -> bool
    ensures { result ≡ skipped byte }
{
    matches!(byte, 0..=0x17 | 0x19 | 0x1C..=0x1F | 0x7F)
}

#[tactic(auto, unfolding(crate::specs::Bytes::digit))]
pub fn is_digit(byte: u8) -> bool
    ensures { result ≡ digit byte }
{
    byte.is_ascii_digit()
}

#[tactic(auto, unfolding(crate::specs::Bytes::sixel))]
pub fn is_sixel(byte: u8) -> bool
    ensures { result ≡ sixel byte }
{
    matches!(byte, b'?'..=b'~')
}

#[tactic(auto, unfolding(crate::specs::Bytes::ends))]
pub fn ends_payload(byte: u8) -> bool
    ensures { result ≡ ends byte }
{
    matches!(byte, 0x18 | 0x1A..=0x1B | 0x80..=0x9F)
}

// What a digit counts.
fn digit_value(byte: u8) -> u64
    ensures { result ≡ byte - 0x30 }
{
    byte.saturating_sub(b'0').into()
}

// A number saturated at its limit.
#[tactic(auto, unfolding(crate::specs::Values::held))]
fn hold(value: u64) -> u32
    ensures { result ≡ held value }
{
    value.min(NUMBER_LIMIT) as u32
}

// The values of one command, as they are read: `current` is the number after the last `;`, and `pending` says that it is
// to be stored at the end.
#[derive(Clone, Copy)]
pub struct Parameters {
    values: [u32; PLACES],
    count: usize,
    current: u32,
    pending: bool,
    places: usize,
}

impl Parameters {
    #[tactic(auto, unfolding(crate::specs::Step::opened))]
    pub fn new(places: usize) -> Parameters
        ensures { result ≡ opened places }
    {
        Parameters {
            values: [0; PLACES],
            count: 0,
            current: 0,
            pending: false,
            places,
        }
    }

    // One byte more of the argument: a digit, a `;`, or one that changes nothing. A hot loop picks `digit` or `semicolon`
    // itself: LLVM then leaves the values alone at a digit.
    #[tactic(auto, unfolding(crate::specs::Step::pushed))]
    pub fn push(self, byte: u8) -> Parameters
        ensures { result ≡ pushed self byte }
    {
        if byte == b';' {
            return self.semicolon();
        }
        self.digit(byte)
    }

    // A digit extends the number; another byte changes nothing.
    #[tactic(auto, unfolding(crate::specs::Step::with_digit))]
    pub fn digit(self, byte: u8) -> Parameters
        ensures { result ≡ with_digit self byte }
    {
        if is_digit(byte) {
            return Parameters {
                current: hold(self.current as u64 * 10 + digit_value(byte)),
                pending: true,
                ..self
            };
        }
        self
    }

    // `;`: the number is stored, and another follows.
    #[tactic(auto, unfolding(crate::specs::Step::with_semicolon))]
    pub fn semicolon(self) -> Parameters
        ensures { result ≡ with_semicolon self }
    {
        let mut after = self.store();
        after.pending = true;
        after
    }

    // The number goes to the next place; where none is left, it is dropped.
    #[tactic(auto, unfolding(crate::specs::Step::stored))]
    pub fn store(self) -> Parameters
        ensures { result ≡ stored self }
    {
        let at = self.count;
        let mut next = Parameters { current: 0, ..self };
        if at < self.places && at < PLACES {
            next.values[at] = self.current;
            next.count = at + 1;
        }
        next
    }

    // The end of the command: what was begun is stored.
    #[tactic(auto, unfolding(crate::specs::Step::finished))]
    pub fn finish(self) -> Parameters
        ensures { result ≡ finished self }
    {
        if self.pending {
            return self.store();
        }
        self
    }

    // The same record made anew from its numbers, so that a loop need not carry its padding bytes along.
    // Kept: (b) a part of `renewed` of `reading`: where a frame is copied whole, a byte a call takes up to 1.4 times as long (docs/SPEED.md).
    pub fn renewed(self) -> Parameters
        ensures { result ≡ self }
    {
        let values = self.values;
        Parameters {
            values,
            count: self.count,
            current: self.current,
            pending: self.pending,
            places: self.places,
        }
    }

    // How many values there are.
    pub fn count(self) -> usize
        ensures { result ≡ self.count }
    {
        self.count
    }

    // The value at a place, 0 where there is none. It is clamped once more, so that it fits a signed number whatever the record.
    #[tactic(auto, unfolding(crate::specs::Step::value_at))]
    pub fn value(self, at: usize) -> u32
        ensures { result ≡ value_at self at }
    {
        if at >= self.count || at >= PLACES {
            return 0;
        }
        hold(self.values[at] as u64)
    }
}

// One more digit of a repeat's number; another byte leaves it.
#[tactic(auto, unfolding(crate::specs::Step::repeated, crate::specs::Bytes::digit))]
pub fn more_repeat(value: u64, byte: u8) -> u64
    ensures { result ≡ repeated value byte }
{
    if !is_digit(byte) {
        return value;
    }
    if value > REPEAT_LAST {
        return REPEAT_CEILING;
    }
    value * 10 + digit_value(byte)
}

// P1 to P3 have 16 bits.
#[tactic(auto, unfolding(crate::specs::Values::held16))]
pub fn hold16(value: u32) -> u16
    ensures { result ≡ held16 value }
{
    value.min(HEADER_LIMIT) as u16
}
