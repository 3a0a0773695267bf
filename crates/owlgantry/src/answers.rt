// What the calls over a session answer, as numbers.
ghost use Rattle.std.specs.Prelude.{◌≡◌};
ghost use Rattle.colours.specs.declared.Palette.{Palette};
ghost use Rattle.payload.specs.Meant.{finish_meant};
ghost use Rattle.owlgantry.specs.Sessions.{number_or_zero, payload_report, ending_kind, ending_byte, dcs_report, finish_report};

use crate::report::report_numbers;
use dcs::Ending;
use frame::{Refusal, number};
use payload::{Answer, Report};

// 0, or the refusal's number: of an opening, a feed, a finish or a move.
#[tactic(auto, unfolding(crate::specs::Sessions::number_or_zero))]
pub fn number_or_zero<T: Copy>(answer: Result<T, Refusal>) -> u64
    ensures { result ≡ number_or_zero answer }
{
    match answer {
        Ok(_) => 0,
        Err(refusal) => number(refusal) as u64,
    }
}

// How a call went (0: all bytes read, 1: stopped for ink, 2: ended), bytes consumed, ink, and the byte that ended the payload.
// Kept: a closure for the end in one function of both would say in a clause what its two callers' definitions say, and be no shorter.
#[tactic(auto, unfolding(crate::specs::Sessions::payload_report))]
pub fn payload_report(answer: Result<Answer<u8>, Refusal>) -> [u64; 4]
    ensures { result ≡ payload_report answer }
{
    match answer {
        Ok(Answer::More { consumed, ink }) => [0, consumed as u64, ink as u64, 0],
        Ok(Answer::Stopped { consumed, ink }) => [1, consumed as u64, ink as u64, 0],
        Ok(
            Answer::Ended {
                consumed,
                ink,
                end: byte,
            },
        ) => [2, consumed as u64, ink as u64, byte as u64],
        Err(_) => [0, 0, 0, 0],
    }
}

fn ending_kind(ending: Ending) -> u64
    ensures { result ≡ ending_kind ending }
{
    match ending {
        Ending::Complete => 2,
        Ending::Cancelled(_) => 3,
        Ending::Interrupted(_) => 4,
    }
}

fn ending_byte(ending: Ending) -> u64
    ensures { result ≡ ending_byte ending }
{
    match ending {
        Ending::Complete => 0,
        Ending::Cancelled(byte) => byte as u64,
        Ending::Interrupted(byte) => byte as u64,
    }
}

// How a call went (0: all bytes read, 1: stopped for ink, 2: complete, 3: cancelled, 4: interrupted), bytes consumed, ink, and the byte
// that cancelled or interrupted the sequence.
#[tactic(auto, unfolding(crate::specs::Sessions::dcs_report))]
pub fn dcs_report(answer: Result<Answer<Ending>, Refusal>) -> [u64; 4]
    ensures { result ≡ dcs_report answer }
{
    match answer {
        Ok(Answer::More { consumed, ink }) => [0, consumed as u64, ink as u64, 0],
        Ok(Answer::Stopped { consumed, ink }) => [1, consumed as u64, ink as u64, 0],
        Ok(
            Answer::Ended {
                consumed,
                ink,
                end: ending,
            },
        ) => [
            ending_kind(ending),
            consumed as u64,
            ink as u64,
            ending_byte(ending),
        ],
        Err(_) => [0, 0, 0, 0],
    }
}

// Width, height, right, bottom, the ratio's kind and number, 1 for a transparent background, how many registers were defined, and the
// declared width and height, and how many definitions had a held value; on a refusal all are 0.
pub fn finish_report(answer: Result<Report, Refusal>) -> [u64; 11]
    ensures { (p : Palette) → result ≡ finish_report (finish_meant answer p) }
{
    let all = report_numbers(answer, 0, 0);
    [
        all[0], all[1], all[2], all[3], all[4], all[5], all[6], all[7], all[8], all[9], all[10],
    ]
}
