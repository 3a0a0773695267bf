// What stands before a payload: the introducer and the header, for a session byte by byte and for a search from the header on.
#![tactic(auto)]

ghost use Rattle.std.specs.Prelude.{◌≡◌, drop};
ghost use Rattle.header.specs.Lead.{start_byte, introduced_byte, header_byte, lead_byte, lead_at, lead_from};
ghost use Rattle.header.specs.Settings.{given_at, settings_from};

use frame::Refusal;
use numbers::{Parameters, ends_payload, hold16, is_digit, is_skipped};
use payload::Settings;

// Before the introducer, after the 1B of one, in the header.
#[derive(Clone, Copy)]
pub enum Place {
    Start,
    Introduced,
    Header,
}

// On to the next byte, or to the payload.
#[derive(Clone, Copy)]
pub enum Led {
    On,
    Begins,
}

// What one byte came to. The small fields stand last, here and below: padding bytes between fields are copied with them from byte to byte.
#[derive(Clone, Copy)]
pub struct Step {
    pub header: Parameters,
    pub place: Place,
    pub led: Result<Led, Refusal>,
}

// What some bytes came to. A byte that is refused is not counted, and those before the first of them are.
#[derive(Clone, Copy)]
pub struct Lead {
    pub header: Parameters,
    pub consumed: usize,
    pub place: Place,
    pub led: Result<Led, Refusal>,
}

fn start_byte(header: Parameters, byte: u8) -> Step
    ensures { result ≡ start_byte header byte }
{
    if byte == 0x1B {
        return Step {
            place: Place::Introduced,
            header,
            led: Ok(Led::On),
        };
    }
    if byte == 0x90 {
        return Step {
            place: Place::Header,
            header,
            led: Ok(Led::On),
        };
    }
    Step {
        place: Place::Start,
        header,
        led: Err(Refusal::Introducer),
    }
}

fn introduced_byte(header: Parameters, byte: u8) -> Step
    ensures { result ≡ introduced_byte header byte }
{
    if byte == b'P' {
        return Step {
            place: Place::Header,
            header,
            led: Ok(Led::On),
        };
    }
    Step {
        place: Place::Introduced,
        header,
        led: Err(Refusal::Introducer),
    }
}

fn in_header(header: Parameters, led: Result<Led, Refusal>) -> Step
    ensures { result ≡ record { place = Place.Header; header = header; led = led } }
{
    Step {
        place: Place::Header,
        header,
        led,
    }
}

fn header_byte(header: Parameters, byte: u8) -> Step
    ensures { result ≡ header_byte header byte }
{
    if is_skipped(byte) {
        return in_header(header, Ok(Led::On));
    }
    if is_digit(byte) {
        return in_header(header.digit(byte), Ok(Led::On));
    }
    if byte == b';' {
        return in_header(header.semicolon(), Ok(Led::On));
    }
    if byte == b'q' {
        return in_header(header, Ok(Led::Begins));
    }
    if ends_payload(byte) {
        return in_header(header, Err(Refusal::HeaderEnded));
    }
    in_header(header, Err(Refusal::HeaderByte))
}

fn lead_byte(place: Place, header: Parameters, byte: u8) -> Step
    ensures { result ≡ lead_byte place header byte }
{
    match place {
        Place::Start => start_byte(header, byte),
        Place::Introduced => introduced_byte(header, byte),
        Place::Header => header_byte(header, byte),
    }
}

fn lead_at(place: Place, header: Parameters, consumed: usize, led: Result<Led, Refusal>) -> Lead
    ensures { result ≡ lead_at place header consumed led }
{
    Lead {
        place,
        header,
        consumed,
        led,
    }
}

// Reads bytes, those from `from` on, until `q`, a refusal, or the last of them.
pub fn read_lead(place: Place, header: Parameters, bytes: &[u8], from: usize) -> Lead
    ensures { result ≡ lead_from (drop from bytes.now) from place header }
{
    let mut here = place;
    let mut values = header;
    for consumed in from..bytes.len() {
        let step = lead_byte(here, values, bytes[consumed]);
        here = step.place;
        values = step.header;
        match step.led {
            Ok(Led::On) => {}
            Ok(Led::Begins) => return lead_at(here, values, consumed + 1, step.led),
            Err(_) => return lead_at(here, values, consumed, step.led),
        }
    }
    lead_at(here, values, from.max(bytes.len()), Ok(Led::On))
}

// A header's value, where it has so many.
fn given(values: Parameters, at: usize) -> Option<u16>
    ensures { result ≡ given_at values at }
{
    if values.count() <= at {
        return None;
    }
    Some(hold16(values.value(at)))
}

// P1 and P2 of a header that `q` closes.
pub fn settings_from(header: Parameters) -> Settings
    ensures { result ≡ settings_from header }
{
    let values = header.finish();
    Settings {
        p1: given(values, 0),
        p2: given(values, 1),
    }
}
