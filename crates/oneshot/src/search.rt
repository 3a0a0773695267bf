// Where an input's payload begins, and with which parameters: the Rust's AnsiPayload::parse, its settings apart from its part.
ghost use Rattle.std.specs.Prelude.{◌≡◌, drop};
ghost use Rattle.oneshot.specs.Search.{introducer_at, start_from, header_from, found_in};

use frame::Refusal;
use header::{Led, Place, read_lead, settings_from};
use numbers::Parameters;
use payload::{Settings, no_settings};

// The place of the first byte of the payload, and its parameters.
#[derive(Clone, Copy)]
pub struct Found {
    pub from: usize,
    pub settings: Settings,
}

// How many bytes the introducer has that stands at a place: 90 alone, or 1B and `P`. None there is 0.
// Kept: `oneshot/Search.introducer_at` is this length, 0 for none, and keeps its meaning.
fn introducer_length(bytes: &[u8], at: usize) -> usize
    ensures { result ≡ introducer_at (drop at bytes.now) }
{
    if bytes.len() <= at {
        return 0;
    }
    if bytes[at] == 0x90 {
        return 1;
    }
    if bytes[at] == 0x1B {
        if bytes.len() - at < 2 {
            return 0;
        }
        if bytes[at + 1] == b'P' {
            return 2;
        }
    }
    0
}

// Looks for the first introducer: the place of the first byte of its header.
pub fn header_start(bytes: &[u8]) -> Option<usize>
    ensures { result ≡ start_from 0 bytes.now }
{
    for at in 0..bytes.len() {
        let length = introducer_length(bytes, at);
        if 0 < length {
            return Some(at + length);
        }
    }
    None
}

// Reads a header that begins at a place. One without `q` is 8.
fn read_header(bytes: &[u8], start: usize) -> Result<Found, Refusal>
    ensures { result ≡ header_from start (drop start bytes.now) }
{
    let lead = read_lead(Place::Header, Parameters::new(3), bytes, start);
    match lead.led? {
        Led::On => Err(Refusal::Unfinished),
        Led::Begins => Ok(Found {
            from: lead.consumed,
            settings: settings_from(lead.header),
        }),
    }
}

// Without an introducer the whole input is payload, with no parameters.
pub fn find(bytes: &[u8]) -> Result<Found, Refusal>
    ensures { result ≡ found_in bytes.now }
{
    match header_start(bytes) {
        Some(start) => read_header(bytes, start),
        None => Ok(Found {
            from: 0,
            settings: no_settings(),
        }),
    }
}
