// Text written into a lent buffer at a cursor. Where the buffer is full, a byte is dropped and the cursor stays: the text is truncated.
#![tactic(auto)]

ghost use Rattle.std.specs.Prelude.{◌≡◌, ◌<◌};
ghost use Rattle.text.specs.Text.{put_byte, put, decimal, hex_digit, hex};
ghost use Rattle.text.specs.Stand.{there};

// A lent buffer, and the place in it where the next byte goes.
#[derive(Drop)]
pub struct Cursor<'a> {
    pub out: &'a mut [u8],
    pub at: usize,
}

impl Cursor<'_> {
    #[tactic(auto, unfolding(crate::specs::Text::put_byte))]
    pub fn put_byte(&mut self, byte: u8)
        ensures buffer { self.new.out.ghost_name ≡ self.old.out.ghost_name }
        ensures text { there self.new ≡ put_byte byte (there self.old) }
    {
        if self.at < self.out.len() {
            self.out[self.at] = byte;
            self.at += 1;
        }
    }

    pub fn put_words(&mut self, words: &[u8])
        ensures buffer { self.new.out.ghost_name ≡ self.old.out.ghost_name }
        ensures text { there self.new ≡ put words.now (there self.old) }
    {
        // At once where there is room for all: byte by byte the place would go through memory.
        if self.at <= self.out.len() && words.len() <= self.out.len() - self.at {
            let end = self.at + words.len();
            self.out[self.at..end].copy_from_slice(words);
            self.at = end;
            return;
        }
        for i in 0..words.len() {
            self.put_byte(words[i]);
        }
    }

    // A number's decimal digits, the most significant first.
    pub fn put_decimal(&mut self, n: u64)
        ensures buffer { self.new.out.ghost_name ≡ self.old.out.ghost_name }
        ensures text { there self.new ≡ put (decimal n) (there self.old) }
    {
        if n >= 10 {
            self.put_decimal(n / 10);
        }
        self.put_byte(b'0' + (n % 10) as u8);
    }

    // A byte as two upper-case hex digits.
    #[tactic(auto, unfolding(crate::specs::Text::hex, crate::specs::Text::put))]
    pub fn put_hex(&mut self, byte: u8)
        ensures buffer { self.new.out.ghost_name ≡ self.old.out.ghost_name }
        ensures text { there self.new ≡ put (hex byte) (there self.old) }
    {
        self.put_byte(hex_digit(byte / 16));
        self.put_byte(hex_digit(byte % 16));
    }
}

#[tactic(auto, unfolding(crate::specs::Text::hex_digit))]
fn hex_digit(n: u8) -> u8
    requires { n < 16 }
    ensures { result ≡ hex_digit n }
{
    if n < 10 {
        return b'0' + n;
    }
    b'A' - 10 + n
}
