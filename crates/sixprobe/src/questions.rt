// Questions to the bin reader, of the lent bytes, and what is said of their answers.
use crate::say;
use bins::{ColumnSpan, Refusal, Setting, Shape};
use std::io;

// The picture and the setting that a question is about.
#[derive(Clone, Copy)]
pub(crate) struct Map {
    pub(crate) shape: Shape,
    pub(crate) setting: Setting,
}

#[derive(Clone, Copy)]
pub(crate) enum Question {
    Bin {
        map: Map,
        column: usize,
    },
    Columns {
        map: Map,
        bin: usize,
    },
    Top {
        map: Map,
        bin: usize,
        color: [u8; 4],
    },
}

fn say_refusal(rt: &impl Print, refusal: Refusal) -> io::Result<()> {
    say::number(rt, "refused ", bins::number(refusal) as usize)
}

fn say_bin(rt: &impl Print, answer: Result<usize, Refusal>) -> io::Result<()> {
    match answer {
        Ok(bin) => say::number(rt, "bin ", bin),
        Err(refusal) => say_refusal(rt, refusal),
    }
}

fn say_columns(rt: &impl Print, answer: Result<ColumnSpan, Refusal>) -> io::Result<()> {
    match answer {
        Ok(columns) => {
            say::number(rt, "columns ", columns.first)?;
            say::number(rt, " ", columns.last)
        }
        Err(refusal) => say_refusal(rt, refusal),
    }
}

fn say_top(rt: &impl Print, answer: Result<Option<usize>, Refusal>) -> io::Result<()> {
    match answer {
        Ok(Some(row)) => say::number(rt, "top ", row),
        Ok(None) => rt.print("top none"),
        Err(refusal) => say_refusal(rt, refusal),
    }
}

pub(crate) fn answer(rt: &impl Print, question: Question, lent: &[u8]) -> io::Result<()> {
    match question {
        Question::Bin { map, column } => {
            say_bin(rt, bins::bin(lent, map.shape, map.setting, column))
        }
        Question::Columns { map, bin } => {
            say_columns(rt, bins::columns(lent, map.shape, map.setting, bin))
        }
        Question::Top { map, bin, color } => {
            say_top(rt, bins::top(lent, map.shape, map.setting, bin, color))
        }
    }
}
