// A reading to be timed, over the C ABI. It is apart from what C and Rust are given to call, which is `owlgantry`: `bench/` alone links it.
#![tactic(auto)]

ghost use Rattle.std.specs.Prelude.{◌≡◌};
ghost use Rattle.colours.specs.declared.Palette.{Palette};
ghost use Rattle.payload.specs.Meant.{finish_meant};
ghost use Rattle.timing.specs.Bench.{SizeWithin, size_or_number, bench_decoded};

use colours::Palette;
use frame::{Refusal, number};
use oneshot::read_in_pieces;
use payload::refusals::may_open;
use payload::{Report, house_limits, no_settings};

// The smallest allowance under the house's limits: 6W.
const LEAST: usize = 6_144;

// Reads a payload under the house's limits, with the standard palette and no parameters, in pieces of `chunk` bytes (0: all
// at once), each with the smallest allowance. Answers width x 2^32 + height, or the refusal's number.
pub fn sixbench_decode(canvas: &mut [u8], stride: usize, bytes: &[u8], chunk: usize) -> u64
    ensures { (result, canvas.new) ≡ bench_decoded stride canvas.old bytes.now }
{
    let limits = house_limits();
    if may_open(limits, stride, canvas.len()) {
        let settings = no_settings();
        let palette = Palette::standard();
        let mut colors = palette.table();
        let answer = read_in_pieces(
            limits,
            stride,
            settings,
            &mut colors,
            canvas,
            bytes,
            chunk,
            LEAST,
        );
        return size_or_number(answer);
    }
    11
}

// Width x 2^32 + height, or the refusal's number. Asks for a size within the house's limits, which fits the two halves of the answer.
fn size_or_number(answer: Result<Report, Refusal>) -> u64
    requires { SizeWithin answer }
    ensures { (p : Palette) → result ≡ size_or_number (finish_meant answer p) }
{
    match answer {
        Ok(report) => report.width as u64 * 4_294_967_296 + report.height as u64,
        Err(refusal) => number(refusal) as u64,
    }
}
