// Parts of lent bytes, and a line's text unescaped to the bytes that it stands for.
ghost use Rattle.std.specs.Prelude.{◌<◌, IfSome, IsSome, length};

// The first bytes of a buffer.
pub(crate) fn first(buffer: &[u8], count: usize) -> &[u8] {
    buffer.get(..count).unwrap_or(buffer)
}

// The bytes of a buffer from a place on.
pub(crate) fn rest(buffer: &[u8], place: usize) -> &[u8] {
    buffer.get(place..).unwrap_or(&[])
}

// What an upper-case hex digit counts.
fn digit(byte: u8) -> u8
    ensures { result < 16 }
{
    if byte < b'A' {
        return byte % 16;
    }
    (byte - b'A' + 10) % 16
}

// The first byte of a text, and what follows it.
fn take(text: &[u8]) -> Option<(u8, &[u8])>
    ensures { (0 < length text.now → IsSome result) × IfSome result (λ t. length t.1.now < length text.now) }
{
    match text {
        [b'\\', high, low, after @ ..] => Some((16 * digit(*high) + digit(*low), after)),
        [byte, after @ ..] => Some((*byte, after)),
        [] => None,
    }
}

// Puts the bytes of a text at the front of `out`, as many as have room.
pub(crate) fn unescape<'a>(text: &[u8], out: &'a mut [u8]) -> &'a [u8] {
    let mut left = text;
    let mut count = 0;
    for (i, place) in out.iter_mut().enumerate() {
        let Some((byte, after)) = take(left) else {
            break;
        };
        *place = byte;
        left = after;
        count = i + 1;
    }
    first(out, count)
}
