// Tries single crates on cases from standard input: the numbers, the canvas, sessions in place, readers in pieces and their text, and the
// words of a refusal. A line is an order: a word, numbers one space apart, and bytes after `|`, where a backslash and two hex digits are
// an escaped byte. What is to be printed was computed independently of this code where it can be: the canvas's checksums from pixels as
// sets of (x, y), and the pictures of `pieces` from the oracle and docs/RULES.md.
#![tactic(auto)]

ghost use Rattle.std.specs.Prelude.{◌≤◌, length};

mod on_canvas;
mod on_numbers;
mod on_sessions;
mod on_streams;
mod on_words;
mod order;
mod parts;
mod say;

use on_canvas::{copy, first_pixel, fresh, grow, sixel, span};
use on_numbers::{show_held, show_kinds, show_repeat, show_values};
use on_sessions::{feed_dcs_twice, feed_payload_twice};
use on_streams::{dump, take_pieces};
use on_words::show_words;
use order::Numbers;
use parts::unescape;
use say::{say, say_checksum, say_line};
use std::io;
use std::io::Read;

// A canvas of 128 x 128 pixels, the largest.
const CANVAS: usize = 65_536;

fn canvas_room() -> [u8; CANVAS] {
    [0; CANVAS]
}

// The most bytes that the input has, and that a line's text stands for.
const INPUT: usize = 65_536;

const BYTES: usize = 4_096;

fn input_room() -> [u8; INPUT] {
    [0; INPUT]
}

fn bytes_room() -> [u8; BYTES] {
    [0; BYTES]
}

fn obey(
    rt: &impl Print,
    word: &[u8],
    n: Numbers,
    bytes: &[u8],
    canvas: &mut [u8],
) -> io::Result<()> {
    match word {
        b"say" => say_line(rt, bytes),
        b"begin" => say(rt, bytes),
        b"kinds" => show_kinds(rt),
        b"values" => show_values(rt, n[0], bytes),
        b"repeat" => show_repeat(rt, bytes),
        b"held" => show_held(rt, n[0], n[1]),
        b"show" => say_checksum(rt, canvas),
        b"copy" => copy(rt, canvas, n),
        b"payload" => feed_payload_twice(rt, canvas, n, bytes),
        b"dcs" => feed_dcs_twice(rt, canvas, n, bytes),
        b"pieces" => take_pieces(rt, canvas, n, bytes),
        b"dump" => dump(rt, canvas, n, bytes),
        b"words" => show_words(rt, n),
        _ => obey_silently(rt, word, n, canvas),
    }
}

// Of the canvas alone, nothing is said.
fn obey_silently(rt: &impl Print, word: &[u8], n: Numbers, canvas: &mut [u8]) -> io::Result<()> {
    match word {
        b"fresh" => fresh(canvas),
        b"first" => first_pixel(canvas),
        b"span" => span(canvas, n[0], n[1]),
        b"sixel" => sixel(canvas, n),
        b"grow" => grow(canvas, n),
        _ => return say(rt, b"bad line\n"),
    }
    Ok(())
}

// Carries a line out on the first `length` bytes of the canvas. Nothing is to be done for an empty line and for a comment.
fn run_line(rt: &impl Print, line: &[u8], canvas: &mut [u8], length: &mut usize) -> io::Result<()> {
    if line.is_empty() || line.starts_with(b"#") {
        return Ok(());
    }
    let Some(order) = order::read(line) else {
        return say(rt, b"bad line\n");
    };
    if order.word == b"canvas".as_slice() {
        *length = order.numbers[0];
        return Ok(());
    }
    let mut room = bytes_room();
    let bytes = unescape(order.text, &mut room);
    let end = (*length).min(canvas.len());
    obey(rt, order.word, order.numbers, bytes, &mut canvas[..end])
}

// Each line ends with a line feed.
fn run(rt: &impl Print, input: &[u8], canvas: &mut [u8]) -> io::Result<()> {
    let mut length = 0;
    for line in input.split_inclusive(|byte| *byte == b'\n') {
        if let Some(words) = line.strip_suffix(b"\n") {
            run_line(rt, words, canvas, &mut length)?;
        }
    }
    Ok(())
}

// Reads until the buffer is full or the input ends, and answers how many bytes came. A failed read counts as the input's end.
fn read_full(input: &mut impl Read, buffer: &mut [u8]) -> usize
    ensures { result ≤ length buffer.new }
{
    let mut done = 0;
    while done < buffer.len() {
        let n = input.read(&mut buffer[done..]).unwrap_or(0);
        if n == 0 {
            return done;
        }
        done += n;
    }
    done
}

fn main(rt: HostRuntime) -> io::Result<()> {
    let mut canvas = canvas_room();
    let mut input = input_room();
    let count = read_full(&mut rt.stdin(), &mut input);
    run(&rt, &input[..count], &mut canvas)
}
