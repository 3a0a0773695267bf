// The line of what is told of a refusal: its seven numbers, and how many bytes the buffer has.
use crate::order::Numbers;
use crate::parts::first;
use crate::say::say_line;
use std::io;
use words::memory::put_numbers;

// No line has more than 127 bytes.
const ROOM: usize = 128;

pub(crate) fn show_words(rt: &impl Print, n: Numbers) -> io::Result<()> {
    let [.., room] = n;
    let mut numbers = [0; 7];
    for (number, given) in numbers.iter_mut().zip(n.iter()) {
        *number = *given as u64;
    }
    let mut line = [0; ROOM];
    let length = put_numbers(&mut line[..room.min(ROOM)], 0, &numbers);
    say_line(rt, first(&line, length))
}
