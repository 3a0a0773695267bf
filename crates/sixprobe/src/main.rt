// The whole reader from a script: each line of standard input is an order to it, and one line is written for each.
#![tactic(auto)]

mod fields;
mod lines;
mod obey;
mod order;
mod questions;
mod registers;
mod rooms;
mod say;
mod sessions;
mod state;

use lines::{Block, line_room, next_line};
use obey::obey;
use rooms::{bytes_room, first};
use state::State;
use std::io;
use std::io::Read;

// The hint makes it part of the loop: by itself it would clear the way to its buffers on the stack for each line, an empty one too.
#[inline(always)]
fn run_line(rt: &impl Print, line: &[u8], state: &mut State, canvas: &mut [u8]) -> io::Result<()> {
    if line.is_empty() {
        return Ok(());
    }
    let mut bytes = bytes_room();
    let Some(order) = order::read(line, state.length, &mut bytes) else {
        return rt.print("bad line\n");
    };
    obey(rt, order, state, canvas)?;
    say::checksum(rt, answers::checksum(first(canvas, state.length)))?;
    rt.print("\n")
}

// A proved loop has to terminate, and nothing says that an input ends: the lines are counted up to a number that no run reaches.
fn run(
    rt: &impl Print,
    input: &mut impl Read,
    block: &mut Block,
    line: &mut [u8],
    canvas: &mut [u8],
) -> io::Result<()> {
    let mut state = State::at_start();
    for _ in 0..u64::MAX {
        let (length, goes_on) = next_line(input, block, line);
        run_line(rt, first(line, length), &mut state, canvas)?;
        if !goes_on {
            break;
        }
    }
    Ok(())
}

fn main(rt: HostRuntime) -> io::Result<()> {
    let mut block = Block::empty();
    let mut line = line_room();
    let mut canvas = rooms::room();
    run(&rt, &mut rt.stdin(), &mut block, &mut line, &mut canvas)
}
