// Reads a DCS sequence from standard input and prints its picture, or its refusal. Bytes after the sequence's end are ignored.
#![tactic(auto)]

ghost use Rattle.std.specs.Prelude.{replicate, ◌≡◌};
ghost use Rattle.colours.specs.Palette.{standard};
ghost use Rattle.pieces.specs.Pieces.{opened_by};
ghost use Rattle.sixdump.specs.Taken.{Taken};

use colours::Palette;
use dump::outcome::write_outcome;
use frame::Limits;
use pieces::{Reader, Standing};
use std::io;
use std::io::Read;

// A canvas of 128 x 128 pixels.
const CANVAS: usize = 65_536;

const STRIDE: usize = 128;

// The longest text: six lines of 127 bytes together, and 128 rows of 128 pixels, nine bytes each.
const TEXT: usize = 147_583;

fn canvas_room() -> [u8; CANVAS]
    ensures { result ≡ replicate 65536 0 }
{
    [0; CANVAS]
}

fn text_room() -> [u8; TEXT] {
    [0; TEXT]
}

fn open() -> Reader
    ensures { result ≡ opened_by (record { width = 128; height = 128; repeats = 128; pixels = 16384 }) 128 standard 65536 }
{
    let limits = Limits {
        width: 128,
        height: 128,
        repeats: 128,
        pixels: 16_384,
    };
    pieces::open(limits, STRIDE, Palette::standard(), CANVAS)
}

// Reads and takes what comes, until the sequence or the input ends. A failed read counts as the input's end. A proved loop has to
// terminate, and nothing says that an input ends: the turns are counted up to a number that no run reaches.
fn read_input(input: &mut impl Read, start: Reader, canvas: &mut [u8]) -> Reader
    ensures { Taken start canvas.old result canvas.new }
{
    let mut reader = start;
    let mut buffer = [0; 4096];
    for _ in 0..u64::MAX {
        let n = input.read(&mut buffer).unwrap_or(0);
        if n == 0 {
            break;
        }
        reader = pieces::take(reader, canvas, &buffer[..n]);
        if !matches!(pieces::standing_of(reader), Standing::Reading) {
            break;
        }
    }
    reader
}

fn main(rt: HostRuntime) -> io::Result<()> {
    let mut canvas = canvas_room();
    let mut text = text_room();
    let reader = read_input(&mut rt.stdin(), open(), &mut canvas);
    let length = write_outcome(&mut text, reader, Palette::standard(), STRIDE, &mut canvas);
    rt.write_all(text.get(..length).unwrap_or(&[]))
}
