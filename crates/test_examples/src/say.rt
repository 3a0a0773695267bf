// Words and numbers on standard output.
use std::io;

pub(crate) fn say(rt: &impl Print, words: &[u8]) -> io::Result<()> {
    rt.write_all(words)
}

pub(crate) fn say_line(rt: &impl Print, words: &[u8]) -> io::Result<()> {
    say(rt, words)?;
    say(rt, b"\n")
}

pub(crate) fn say_number(rt: &impl Print, words: &[u8], n: usize) -> io::Result<()> {
    say(rt, words)?;
    rt.print(n)
}

pub(crate) fn say_checksum(rt: &impl Print, bytes: &[u8]) -> io::Result<()> {
    let sum = answers::checksum(bytes);
    println!(rt; "{sum:08x}")
}
