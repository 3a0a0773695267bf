// How a session reads: introducer, header, payload and end.
ghost use Rattle.std.specs.Prelude.{◌≡◌, ◌+◌, ◌≤◌, length, drop};
ghost use Rattle.colours.specs.declared.Palette.{Palette};
ghost use Rattle.colours.specs.Palette.{of_table};
ghost use Rattle.payload.specs.Core as payload;
ghost use Rattle.dcs.specs.Core.{over, fed_over};
ghost use Rattle.dcs.specs.Session.{session_of, within, before, over_told, escaped_told, closed_told, count_of, passed_told, told_of, fed_payload, fed_lead, fed_in, fed_by};

use crate::kernel::Core;
use crate::{Ending, Phase};
use frame::{Frame, Refusal};
use header::{Led, Place, read_lead, settings_from};
use numbers::Parameters;
use payload::kernel::Setup;
use payload::kernel::feeding::feed_passed;
use payload::kernel::opening::blank_frame;
use payload::refusals::feed_refusal;
use payload::{Answer, Fed, Life, deferred};
use reading::renew::renewed;

// What bytes alone decide: an answer, and the phase after it.
#[derive(Clone, Copy)]
struct Told {
    answer: Result<Answer<Ending>, Refusal>,
    phase: Phase,
}

// A call's answer, and its session in the phase after it.
fn tell(setup: Setup, life: Life, frame: Frame, header: Parameters, told: Told) -> Fed<Core, Ending>
    ensures { (p : Palette) → fed_over result p ≡ told_of (payload.over setup life frame p) header told }
{
    Fed {
        answer: told.answer,
        session: Core {
            setup,
            life,
            frame,
            header,
            phase: told.phase,
        },
    }
}

// The sequence is over.
fn end(consumed: usize, ink: usize, ending: Ending) -> Told
    ensures { result ≡ over_told consumed ink ending }
{
    Told {
        answer: Ok(Answer::Ended {
            consumed,
            ink,
            end: ending,
        }),
        phase: Phase::Over(ending),
    }
}

// After the 1B that ended a payload, with `at` bytes consumed.
fn escape(bytes: &[u8], at: usize, ink: usize) -> Told
    ensures { result ≡ escaped_told (drop at bytes.now) at ink }
{
    if bytes.len() <= at {
        return Told {
            answer: Ok(Answer::More { consumed: at, ink }),
            phase: Phase::Escaped,
        };
    }
    if bytes[at] == b'\\' {
        return end(at + 1, ink, Ending::Complete);
    }
    end(at, ink, Ending::Interrupted(0x1B))
}

// At the byte that ended a payload, with `at` bytes consumed. It is always there.
fn close(bytes: &[u8], at: usize, ink: usize) -> Told
    ensures { result ≡ closed_told (drop at bytes.now) at ink }
{
    if bytes.len() <= at {
        return Told {
            answer: Ok(Answer::More { consumed: at, ink }),
            phase: Phase::Within,
        };
    }
    let byte = bytes[at];
    let next = at + 1;
    if byte == 0x1B {
        return escape(bytes, next, ink);
    }
    if byte == 0x9C {
        return end(next, ink, Ending::Complete);
    }
    if byte == 0x18 {
        return end(next, ink, Ending::Cancelled(0x18));
    }
    if byte == 0x1A {
        return end(next, ink, Ending::Cancelled(0x1A));
    }
    end(at, ink, Ending::Interrupted(byte))
}

// What a payload session's call came to, with `from` bytes before it.
fn pass_on(answer: Result<Answer<u8>, Refusal>, bytes: &[u8], from: usize) -> Told
    requires { from + count_of answer ≤ length bytes.now }
    ensures { result ≡ passed_told answer (drop from bytes.now) from }
{
    match answer {
        Ok(Answer::More { consumed, ink }) => Told {
            answer: Ok(Answer::More {
                consumed: from + consumed,
                ink,
            }),
            phase: Phase::Within,
        },
        Ok(Answer::Stopped { consumed, ink }) => Told {
            answer: Ok(Answer::Stopped {
                consumed: from + consumed,
                ink,
            }),
            phase: Phase::Within,
        },
        Ok(
            Answer::Ended {
                consumed,
                ink,
                end: _,
            },
        ) => close(bytes, from + consumed, ink),
        Err(refusal) => Told {
            answer: Err(refusal),
            phase: Phase::Within,
        },
    }
}

// In the payload. The session has passed 9, 12 and 13.
fn feed_within(
    setup: Setup,
    life: Life,
    frame: Frame,
    header: Parameters,
    colors: &mut [u32; 256],
    canvas: &mut [u8],
    bytes: &[u8],
    allowance: usize,
) -> Fed<Core, Ending>
    requires { payload.Passed setup life frame (length canvas.old) allowance }
    ensures { (fed_over result (of_table colors.new), canvas.new) ≡ fed_payload
        (within (payload.over setup life frame (of_table colors.old)) header) canvas.old bytes.now 0 allowance }
{
    let call = feed_passed(setup, life, frame, colors, canvas, bytes, allowance);
    // Made anew: it has just been written number by number, and a processor that copies it whole waits for that. A call with one byte
    // feels it.
    let anew = renewed(call.frame);
    tell(
        setup,
        call.life,
        anew,
        header,
        pass_on(call.answer, bytes, 0),
    )
}

// The payload begins, with `from` bytes consumed.
fn feed_begun(
    setup: Setup,
    life: Life,
    frame: Frame,
    header: Parameters,
    colors: &mut [u32; 256],
    canvas: &mut [u8],
    bytes: &[u8],
    from: usize,
    allowance: usize,
) -> Fed<Core, Ending>
    requires { from ≤ length bytes.now }
    ensures { (fed_over result (of_table colors.new), canvas.new) ≡ fed_payload
        (within (payload.over setup life frame (of_table colors.old)) header) canvas.old (drop from bytes.now) from allowance }
{
    let verdict = feed_refusal(setup, life, frame, canvas.len(), allowance);
    if let Err(refusal) = verdict {
        let told = Told {
            answer: Err(refusal),
            phase: Phase::Within,
        };
        return tell(setup, life, frame, header, told);
    }
    let part = &bytes[from..];
    let call = feed_passed(setup, life, frame, colors, canvas, part, allowance);
    tell(
        setup,
        call.life,
        call.frame,
        header,
        pass_on(call.answer, bytes, from),
    )
}

// Before the payload.
fn feed_lead(
    setup: Setup,
    life: Life,
    frame: Frame,
    header: Parameters,
    place: Place,
    colors: &mut [u32; 256],
    canvas: &mut [u8],
    bytes: &[u8],
    allowance: usize,
) -> Fed<Core, Ending>
    ensures { (fed_over result (of_table colors.new), canvas.new) ≡ fed_lead
        (before (payload.over setup life frame (of_table colors.old)) header place) place canvas.old bytes.now allowance }
{
    let lead = read_lead(place, header, bytes, 0);
    let values = lead.header;
    let consumed = lead.consumed;
    let here = lead.place;
    match lead.led {
        Ok(Led::On) => {
            let told = Told {
                answer: Ok(Answer::More { consumed, ink: 0 }),
                phase: Phase::Before(here),
            };
            tell(setup, life, frame, values, told)
        }
        Ok(Led::Begins) => {
            let begun = deferred::start(setup, settings_from(values), colors, canvas);
            let blank = blank_frame(colors);
            feed_begun(
                begun, life, blank, values, colors, canvas, bytes, consumed, allowance,
            )
        }
        Err(refusal) => {
            let told = Told {
                answer: Err(refusal),
                phase: Phase::Before(here),
            };
            tell(setup, Life::Failed, frame, values, told)
        }
    }
}

// A call that is not refused at once, by the phase.
fn feed_in(
    phase: Phase,
    setup: Setup,
    life: Life,
    frame: Frame,
    header: Parameters,
    colors: &mut [u32; 256],
    canvas: &mut [u8],
    bytes: &[u8],
    allowance: usize,
) -> Fed<Core, Ending>
    requires { payload.Passed setup life frame (length canvas.old) allowance }
    ensures { (fed_over result (of_table colors.new), canvas.new) ≡ fed_in phase
        (session_of (payload.over setup life frame (of_table colors.old)) header phase) canvas.old bytes.now allowance }
{
    match phase {
        Phase::Before(place) => {
            feed_lead(
                setup, life, frame, header, place, colors, canvas, bytes, allowance,
            )
        }
        Phase::Within => feed_within(setup, life, frame, header, colors, canvas, bytes, allowance),
        Phase::Escaped => tell(setup, life, frame, header, escape(bytes, 0, 0)),
        Phase::Over(ending) => tell(setup, life, frame, header, end(0, 0, ending)),
    }
}

// Reads bytes, painting on the canvas, until all are read, the sequence ends, or a sixel's ink exceeds the allowance.
pub fn feed(
    core: Core,
    colors: &mut [u32; 256],
    canvas: &mut [u8],
    bytes: &[u8],
    allowance: usize,
) -> Fed<Core, Ending>
    ensures { (fed_over result (of_table colors.new), canvas.new)
        ≡ fed_by (over core (of_table colors.old)) canvas.old bytes.now allowance }
{
    let life = core.life;
    let verdict = feed_refusal(core.setup, life, core.frame, canvas.len(), allowance);
    if let Err(refusal) = verdict {
        return Fed {
            answer: Err(refusal),
            session: core,
        };
    }
    feed_in(
        core.phase,
        core.setup,
        life,
        core.frame,
        core.header,
        colors,
        canvas,
        bytes,
        allowance,
    )
}
