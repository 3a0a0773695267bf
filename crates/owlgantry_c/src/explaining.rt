// Where and why a call is refused, for C.
ghost use Rattle.std.specs.Prelude.{◌≡◌};
ghost use Rattle.owlgantry.specs.Explaining.{payload_feed_told, payload_finish_told, dcs_feed_told, dcs_finish_told, read_told, words_put};

// A feed of a payload session. The place is counted from the start of the bytes.
#[unsafe(no_mangle)]
pub extern "C" fn owlgantry_raw_payload_explain(
    session: &[u64; 48],
    registers: &[u32; 256],
    length: usize,
    bytes: &[u8],
    allowance: usize,
    telling: &mut [u64; 7],
) -> u64
    ensures { (result, telling.new)
        ≡ payload_feed_told session.now registers.now length bytes.now allowance }
{
    owlgantry::explaining::owlgantry_raw_payload_explain(
        session, registers, length, bytes, allowance, telling,
    )
}

// A finish of a payload session. It is given no byte, and its place is 0: where the bytes before it end.
#[unsafe(no_mangle)]
pub extern "C" fn owlgantry_raw_payload_explain_finish(
    session: &[u64; 48],
    registers: &[u32; 256],
    length: usize,
    telling: &mut [u64; 7],
) -> u64
    ensures { (result, telling.new) ≡ payload_finish_told session.now registers.now length }
{
    owlgantry::explaining::owlgantry_raw_payload_explain_finish(session, registers, length, telling)
}

// A feed of a DCS session, as of a payload session.
#[unsafe(no_mangle)]
pub extern "C" fn owlgantry_raw_dcs_explain(
    session: &[u64; 48],
    registers: &[u32; 256],
    length: usize,
    bytes: &[u8],
    allowance: usize,
    telling: &mut [u64; 7],
) -> u64
    ensures { (result, telling.new)
        ≡ dcs_feed_told session.now registers.now length bytes.now allowance }
{
    owlgantry::explaining::owlgantry_raw_dcs_explain(
        session, registers, length, bytes, allowance, telling,
    )
}

// A finish of a DCS session, as of a payload session.
#[unsafe(no_mangle)]
pub extern "C" fn owlgantry_raw_dcs_explain_finish(
    session: &[u64; 48],
    registers: &[u32; 256],
    length: usize,
    telling: &mut [u64; 7],
) -> u64
    ensures { (result, telling.new) ≡ dcs_finish_told session.now registers.now length }
{
    owlgantry::explaining::owlgantry_raw_dcs_explain_finish(session, registers, length, telling)
}

// Reading all at once. The place is counted from the start of the bytes, with whatever stands before the introducer.
#[unsafe(no_mangle)]
pub extern "C" fn owlgantry_raw_read_explain(
    width: usize,
    height: usize,
    repeats: usize,
    pixels: usize,
    stride: usize,
    length: usize,
    palette: &[u32; 256],
    bytes: &[u8],
    telling: &mut [u64; 7],
) -> u64
    ensures { (result, telling.new)
        ≡ read_told (record { width = width; height = height; repeats = repeats; pixels = pixels }) stride length
        palette.now bytes.now }
{
    owlgantry::explaining::owlgantry_raw_read_explain(
        width, height, repeats, pixels, stride, length, palette, bytes, telling,
    )
}

// Writes the line of English that seven numbers tell to the front of `out`, as much of it as there is room for, and answers how many bytes were
// written. Where no refusal has the first number, that is 0.
#[unsafe(no_mangle)]
pub extern "C" fn owlgantry_raw_words(telling: &[u64; 7], out: &mut [u8]) -> u64
    ensures { (result, out.new) ≡ words_put telling.now out.old }
{
    owlgantry::explaining::owlgantry_raw_words(telling, out)
}
