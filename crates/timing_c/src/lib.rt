// The reading to be timed, under an unmangled name, over the C ABI: `bench/` links it.
#![tactic(auto)]

ghost use Rattle.std.specs.Prelude.{◌≡◌};
ghost use Rattle.timing.specs.Bench.{bench_decoded};

// Reads a payload under the house's limits, with the standard palette and no parameters, in pieces of `chunk` bytes (0: all
// at once), each with the smallest allowance. Answers width x 2^32 + height, or the refusal's number.
#[unsafe(no_mangle)]
pub extern "C" fn sixbench_decode(
    canvas: &mut [u8],
    stride: usize,
    bytes: &[u8],
    chunk: usize,
) -> u64
    ensures { (result, canvas.new) ≡ bench_decoded stride canvas.old bytes.now }
{
    timing::sixbench_decode(canvas, stride, bytes, chunk)
}
