// A DCS session in the caller's memory, for C.
ghost use Rattle.std.specs.Prelude.{◌≡◌};
ghost use Rattle.owlgantry.specs.Sessions.{dcs_opened, dcs_fed, dcs_finished};

// Opens a session for a canvas of `length` bytes, with a copy of the owner's registers, their colours and marks.
// Answers 0, or 11.
#[unsafe(no_mangle)]
pub extern "C" fn owlgantry_raw_dcs_open(
    width: usize,
    height: usize,
    repeats: usize,
    pixels: usize,
    stride: usize,
    length: usize,
    palette: &[u32; 256],
    session: &mut [u64; 48],
    registers: &mut [u32; 256],
) -> u64
    ensures { (result, session.new, registers.new)
        ≡ dcs_opened (record { width = width; height = height; repeats = repeats; pixels = pixels }) stride length palette.now }
{
    owlgantry::dcs_session::owlgantry_raw_dcs_open(
        width, height, repeats, pixels, stride, length, palette, session, registers,
    )
}

// Reads bytes. Answers 0 or the refusal's number, and reports four numbers: how the call went (0: all bytes read, 1: stopped for ink,
// 2: complete, 3: cancelled, 4: interrupted), bytes consumed, ink, and the byte that cancelled or interrupted the sequence. On a
// refusal they are 0.
#[unsafe(no_mangle)]
pub extern "C" fn owlgantry_raw_dcs_feed(
    session: &mut [u64; 48],
    registers: &mut [u32; 256],
    canvas: &mut [u8],
    bytes: &[u8],
    allowance: usize,
    report: &mut [u64; 4],
) -> u64
    ensures { (result, session.new, registers.new, canvas.new, report.new)
        ≡ dcs_fed session.old registers.old canvas.old bytes.now allowance }
{
    owlgantry::dcs_session::owlgantry_raw_dcs_feed(
        session, registers, canvas, bytes, allowance, report,
    )
}

// Finishes a sequence that has come to its end, as a payload session is finished.
#[unsafe(no_mangle)]
pub extern "C" fn owlgantry_raw_dcs_finish(
    session: &mut [u64; 48],
    registers: &[u32; 256],
    canvas: &mut [u8],
    palette: &mut [u32; 256],
    report: &mut [u64; 11],
) -> u64
    ensures { (result, session.new, palette.new, canvas.new, report.new)
        ≡ dcs_finished session.old registers.now palette.old canvas.old }
{
    owlgantry::dcs_session::owlgantry_raw_dcs_finish(session, registers, canvas, palette, report)
}
