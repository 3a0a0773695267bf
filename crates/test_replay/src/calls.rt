// What calls said: each call's answer, whether it kept to the rules of its kind, and what all came to.
use frame::Refusal;

// How a session came to its end, and the byte that is told with it: a payload's, or a DCS sequence's.
#[derive(Clone, Copy, PartialEq, Eq)]
pub(crate) enum End {
    Payload(u8),
    Complete,
    Cancelled(u8),
    Interrupted(u8),
}

impl End {
    // The list's numbers for where a session stands: a status, and a byte or 0.
    pub(crate) fn stored(end: Option<End>) -> [u8; 2] {
        match end {
            None => [0, 0],
            Some(End::Payload(byte)) => [1, byte],
            Some(End::Complete) => [2, 0],
            Some(End::Cancelled(byte)) => [3, byte],
            Some(End::Interrupted(byte)) => [4, byte],
        }
    }

    // Whether the bytes on both sides of an end fit it. The last byte read is the one that completes or cancels; the first byte unread
    // is the one that ends or interrupts; after a 1B, which was read, it is any that does not complete.
    fn is_between(self, read: &[u8], unread: &[u8]) -> bool {
        match self {
            End::Complete => read.ends_with(b"\x9C") || read.ends_with(b"\\"),
            End::Cancelled(byte) => read.ends_with(&[byte]),
            End::Interrupted(0x1B) => !unread.is_empty() && !unread.starts_with(b"\\"),
            End::Interrupted(byte) | End::Payload(byte) => unread.starts_with(&[byte]),
        }
    }
}

// How a call came to its end.
#[derive(Clone, Copy, PartialEq, Eq)]
pub(crate) enum Came {
    More,
    Stopped,
    Ended(End),
}

// What a call read that was not refused.
#[derive(Clone, Copy)]
pub(crate) struct Heard {
    pub came: Came,
    pub consumed: usize,
    pub ink: usize,
}

pub(crate) type Said = Result<Heard, Refusal>;

impl Heard {
    // Whether the call kept to the rules of its answer: all bytes read, or up to a stop after some ink, or up to the end.
    fn is_fair(self, bytes: &[u8]) -> bool {
        let Some((read, unread)) = bytes.split_at_checked(self.consumed) else {
            return false;
        };
        match self.came {
            Came::More => unread.is_empty(),
            Came::Stopped => !read.is_empty() && !unread.is_empty() && 0 < self.ink,
            Came::Ended(end) => end.is_between(read, unread),
        }
    }
}

// Whether a call kept to the rules: no more ink than allowed, and after an end, which is the one before, only that end again.
pub(crate) fn is_fair(said: Said, before: Option<End>, bytes: &[u8], allowance: usize) -> bool {
    let Ok(heard) = said else {
        return before.is_none();
    };
    if allowance < heard.ink {
        return false;
    }
    match before {
        Some(end) => heard.came == Came::Ended(end) && heard.consumed == 0 && heard.ink == 0,
        None => heard.is_fair(bytes),
    }
}

// What a session's calls came to so far; the refusal is a feed's. `consumed` leaves out a piece that was refused.
#[derive(Clone, Copy)]
pub(crate) struct Count {
    pub refusal: Option<Refusal>,
    pub end: Option<End>,
    pub consumed: u64,
    pub ink: u64,
    pub calls: u64,
    pub pieces: u64,
    pub is_fair: bool,
}

impl Count {
    pub(crate) fn new(is_fair: bool) -> Count {
        Count {
            refusal: None,
            end: None,
            consumed: 0,
            ink: 0,
            calls: 0,
            pieces: 0,
            is_fair,
        }
    }

    pub(crate) fn add(&mut self, said: Said, is_fair: bool) {
        self.calls = self.calls.wrapping_add(1);
        self.is_fair = self.is_fair && is_fair;
        match said {
            Ok(heard) => {
                self.consumed = self.consumed.wrapping_add(heard.consumed as u64);
                self.ink = self.ink.wrapping_add(heard.ink as u64);
                if let Came::Ended(end) = heard.came {
                    self.end = Some(end);
                }
            }
            Err(refusal) => self.refusal = Some(refusal),
        }
    }

    pub(crate) fn add_piece(&mut self, consumed_before: u64) {
        self.pieces = self.pieces.wrapping_add(1);
        if self.refusal.is_some() {
            self.consumed = consumed_before;
        }
    }
}
