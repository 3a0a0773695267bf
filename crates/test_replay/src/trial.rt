// A record compared with the reader: on a canvas that fits exactly, on one that is a column and a row larger, and, where there
// is a picture, on one that is a row short and on one that is a column short.
ghost use Rattle.std.specs.Prelude.{◌≤◌};

use crate::calls::End;
use crate::fields::{Kind, byte_at, height_of, kind_of, picture_of, width_of};
use crate::seen::{Shown, fill, look};
use crate::session::Ran;
use crate::{one_shot, session};
use colours::Palette;
use frame::Refusal;

// The list has no picture that is longer or has more pixels.
const LONGEST: usize = 262_144;

// An allowance that no ink exceeds.
const ENDLESS: usize = usize::MAX;

// A canvas's shape, and what a call may ink.
#[derive(Clone, Copy)]
struct Plan {
    stride: usize,
    rows: usize,
    allowance: usize,
}

// A canvas's side for a picture's: at least 1.
fn side_for(side: usize) -> usize
    ensures { result ≤ 262144 }
{
    side.clamp(1, LONGEST)
}

#[derive(Clone, Copy)]
struct Trial {
    ran: Ran,
    shown: Shown,
}

fn run(record: &[u8], canvas: &mut [u8], plan: Plan, owner: Palette) -> Ran {
    if kind_of(record) == Some(Kind::OneShot) {
        return one_shot::run(record, canvas, plan.stride, owner);
    }
    session::run(record, canvas, plan.stride, plan.allowance, owner)
}

fn on_canvas(record: &[u8], canvas: &mut [u8], plan: Plan, owner: Palette) -> Trial {
    fill(canvas);
    let ran = run(record, canvas, plan, owner);
    let width = width_of(record);
    let height = height_of(record);
    Trial {
        ran,
        shown: look(canvas, plan.stride, width, height),
    }
}

// The bytes of a canvas, or 0 where there is no room for it.
fn canvas_length(stride: usize, rows: usize, room: usize) -> usize
    ensures { result ≤ room }
{
    let length = stride.saturating_mul(rows).saturating_mul(4);
    if length <= room { length } else { 0 }
}

fn try_on(record: &[u8], buffer: &mut [u8], plan: Plan, owner: Palette) -> Trial {
    let length = canvas_length(plan.stride, plan.rows, buffer.len());
    on_canvas(record, &mut buffer[..length], plan, owner)
}

// The outcome of the calls: refusal, finish, status, and bytes consumed.
fn do_calls_agree(record: &[u8], ran: Ran) -> bool {
    let count = ran.count;
    let [status, byte] = End::stored(count.end);
    count.is_fair
        && ran.refusal.map_or(0, frame::number) == byte_at(record, 6)
        && u8::from(ran.is_finished) == byte_at(record, 7)
        && status == byte_at(record, 8)
        && byte == byte_at(record, 9)
        && count.consumed == answers::number_at(record, 40) as u64
}

fn agrees(record: &[u8], trial: Trial) -> bool {
    let ran = trial.ran;
    let seen = trial.shown;
    do_calls_agree(record, ran)
        && ran.picture == picture_of(record)
        && seen.sum == answers::number_at(record, 64)
        && seen.is_rest_kept
        && answers::registers_sum(ran.palette) == answers::number_at(record, 68)
}

// With 6W a call, each call more than there are pieces had ink; with no bound there is none more, and the ink is the same.
fn do_counts_agree(least: Ran, endless: Ran) -> bool {
    let few = least.count;
    let free = endless.count;
    few.pieces <= few.calls
        && few.calls - few.pieces <= few.ink
        && free.calls == free.pieces
        && few.pieces == free.pieces
        && (few.refusal.is_some() || few.ink == free.ink)
}

fn is_without_room(trial: Trial) -> bool {
    let ran = trial.ran;
    matches!(ran.refusal, Some(Refusal::Room)) && ran.count.is_fair
}

// A canvas too short for a picture has no room for it, where there is such a canvas.
fn is_short_refused(record: &[u8], buffer: &mut [u8], plan: Plan, owner: Palette) -> bool {
    plan.stride == 0 || plan.rows == 0 || is_without_room(try_on(record, buffer, plan, owner))
}

// The canvas that a record's picture fits exactly, with the least allowance.
fn exact_plan(record: &[u8]) -> Plan {
    Plan {
        stride: side_for(width_of(record)),
        rows: side_for(height_of(record)),
        allowance: 6 * (answers::number_at(record, 12) as usize),
    }
}

// One column and one row more, and any ink.
fn larger_plan(record: &[u8]) -> Plan {
    Plan {
        stride: side_for(width_of(record)) + 1,
        rows: side_for(height_of(record)) + 1,
        allowance: ENDLESS,
    }
}

// A row short, and a column short.
fn are_shorter_refused(record: &[u8], buffer: &mut [u8], owner: Palette) -> bool {
    if picture_of(record).is_none() {
        return true;
    }
    let exact = exact_plan(record);
    let low = Plan {
        rows: exact.rows.saturating_sub(1),
        ..exact
    };
    let narrow = Plan {
        stride: exact.stride.saturating_sub(1),
        ..exact
    };
    let is_low_refused = is_short_refused(record, buffer, low, owner);
    let is_narrow_refused = is_short_refused(record, buffer, narrow, owner);
    is_low_refused && is_narrow_refused
}

// Whether the reader does what the record says, and the owner's palette after it.
#[derive(Clone, Copy)]
pub(crate) struct Compared {
    pub is_same: bool,
    pub palette: Palette,
}

fn verdict(record: &[u8], exact: Trial, larger: Trial, are_refused: bool) -> Compared {
    let least = exact.ran;
    let endless = larger.ran;
    let is_same = are_refused
        && agrees(record, exact)
        && agrees(record, larger)
        && do_counts_agree(least, endless);
    Compared {
        is_same,
        palette: least.palette,
    }
}

pub(crate) fn compare(record: &[u8], buffer: &mut [u8], owner: Palette) -> Compared {
    let exact = try_on(record, buffer, exact_plan(record), owner);
    let larger = try_on(record, buffer, larger_plan(record), owner);
    let are_refused = are_shorter_refused(record, buffer, owner);
    verdict(record, exact, larger, are_refused)
}
