// A command's argument, read whole where it stands among the bytes with the byte that ends it. Only the ordinary forms are read
// so: numbers of some digits, with nothing skipped between. Any other is left to the reference machine.
ghost use Rattle.std.specs.Prelude.{◌≡◌, true, ℕ, IfSome};
ghost use Rattle.fast.specs.Argument.{closing, Written, Last, Before, Parted, Defined};

// A number, and the place after it.
#[derive(Clone, Copy)]
pub struct Number {
    pub value: u32,
    pub end: usize,
}

// The values of a colour's definition, and the place after them.
#[derive(Clone, Copy)]
pub struct Definition {
    pub first: u32,
    pub space: u32,
    pub x: u32,
    pub y: u32,
    pub z: u32,
    pub end: usize,
}

// A number above this has all the digits that are read so.
const LARGE: u32 = 100_000_000;

// The number whose first digit stands at a place.
pub fn number_at(bytes: &[u8], from: usize) -> Option<Number>
    ensures { IfSome result (Written bytes.now from) }
{
    let &first = bytes.get(from)?;
    if !numbers::is_digit(first) {
        return None;
    }
    let mut value = (first - 0x30) as u32;
    for end in from + 1..bytes.len() {
        let byte = bytes[end];
        if !numbers::is_digit(byte) || LARGE < value {
            return Some(Number { value, end });
        }
        value = value * 10 + (byte - 0x30) as u32;
    }
    Some(Number {
        value,
        end: bytes.len(),
    })
}

// Whether a byte ends an argument, whichever it is.
fn ends_argument(byte: u8) -> bool
    ensures { result ≡ closing byte }
{
    !numbers::is_digit(byte) && !numbers::is_skipped(byte) && byte != b';'
}

// Whether the argument ends after a number.
pub fn is_last(bytes: &[u8], number: Number) -> bool
    ensures { result ≡ true → (from : ℕ) → Written bytes.now from number → Last bytes.now from number }
{
    number.end < bytes.len() && ends_argument(bytes[number.end])
}

// A number that is the argument's last.
fn last_number(bytes: &[u8], from: usize) -> Option<Number>
    ensures { IfSome result (Last bytes.now from) }
{
    let number = number_at(bytes, from)?;
    if is_last(bytes, number) {
        return Some(number);
    }
    None
}

// A number, the argument's last, that stands before a sixel.
pub fn number_before(bytes: &[u8], from: usize) -> Option<Number>
    ensures { IfSome result (Before bytes.now from) }
{
    let number = number_at(bytes, from)?;
    let &next = bytes.get(number.end)?;
    if numbers::is_sixel(next) {
        return Some(number);
    }
    None
}

// A number with the `;` after it.
fn after_semicolon(bytes: &[u8], number: Number) -> Option<Number>
    ensures { (from : ℕ) → Written bytes.now from number → IfSome result (Parted bytes.now from) }
{
    let Number { value, end } = number;
    let &next = bytes.get(end)?;
    if next == b';' {
        return Some(Number {
            value,
            end: end + 1,
        });
    }
    None
}

fn parted_number(bytes: &[u8], from: usize) -> Option<Number>
    ensures { IfSome result (Parted bytes.now from) }
{
    after_semicolon(bytes, number_at(bytes, from)?)
}

// Five numbers and no more, the first of which was read as far as its digits go.
pub fn read_definition(bytes: &[u8], only: Number) -> Option<Definition>
    ensures { (from : ℕ) → Written bytes.now from only → IfSome result (Defined bytes.now from) }
{
    let first = after_semicolon(bytes, only)?;
    let space = parted_number(bytes, first.end)?;
    let x = parted_number(bytes, space.end)?;
    let y = parted_number(bytes, x.end)?;
    let z = last_number(bytes, y.end)?;
    Some(Definition {
        first: first.value,
        space: space.value,
        x: x.value,
        y: y.value,
        z: z.value,
        end: z.end,
    })
}
