// A payload session in the caller's memory, for C.
ghost use Rattle.std.specs.Prelude.{◌≡◌};
ghost use Rattle.owlgantry.specs.Sessions.{payload_opened, payload_fed, payload_finished};

// Opens a session with a copy of the owner's registers, their colours and marks. A P1 or P2 above 65,535 is a missing one. Answers 0, or 11.
#[unsafe(no_mangle)]
pub extern "C" fn owlgantry_raw_payload_open(
    width: usize,
    height: usize,
    repeats: usize,
    pixels: usize,
    stride: usize,
    p1: u32,
    p2: u32,
    canvas: &mut [u8],
    palette: &[u32; 256],
    session: &mut [u64; 48],
    registers: &mut [u32; 256],
) -> u64
    ensures { (result, session.new, registers.new, canvas.new)
        ≡ payload_opened (record { width = width; height = height; repeats = repeats; pixels = pixels }) stride p1 p2
        palette.now canvas.old }
{
    owlgantry::payload_session::owlgantry_raw_payload_open(
        width, height, repeats, pixels, stride, p1, p2, canvas, palette, session, registers,
    )
}

// Reads bytes. Answers 0 or the refusal's number, and reports four numbers: how the call went (0: all bytes read, 1: stopped for ink,
// 2: ended), bytes consumed, ink, and the byte that ended the payload. On a refusal they are 0.
#[unsafe(no_mangle)]
pub extern "C" fn owlgantry_raw_payload_feed(
    session: &mut [u64; 48],
    registers: &mut [u32; 256],
    canvas: &mut [u8],
    bytes: &[u8],
    allowance: usize,
    report: &mut [u64; 4],
) -> u64
    ensures { (result, session.new, registers.new, canvas.new, report.new)
        ≡ payload_fed session.old registers.old canvas.old bytes.now allowance }
{
    owlgantry::payload_session::owlgantry_raw_payload_feed(
        session, registers, canvas, bytes, allowance, report,
    )
}

// Carries the pending command out. Answers 0 or the refusal's number. The palette gets the session's colours and marks where there is a
// picture, and the session's numbers are 0 afterwards: a finish hands back no session. Reports eleven numbers, 0 on a refusal: width,
// height, right, bottom; the ratio's kind and number (0: left to P1, which is missing; 1: left to P1's number; 2: the raster's, number : 1);
// 1 for a transparent background; how many registers the picture defined; the declared width and height, each 0 where there is none; and how
// many definitions had a held value.
#[unsafe(no_mangle)]
pub extern "C" fn owlgantry_raw_payload_finish(
    session: &mut [u64; 48],
    registers: &[u32; 256],
    canvas: &mut [u8],
    palette: &mut [u32; 256],
    report: &mut [u64; 11],
) -> u64
    ensures { (result, session.new, palette.new, canvas.new, report.new)
        ≡ payload_finished session.old registers.now palette.old canvas.old }
{
    owlgantry::payload_session::owlgantry_raw_payload_finish(
        session, registers, canvas, palette, report,
    )
}
