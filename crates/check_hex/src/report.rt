// Texts, numbers and refusals printed on standard output.
use std::io;

pub fn text(rt: &impl Print, t: &[u8]) -> io::Result<()> {
    rt.write_all(t)
}

pub fn line(rt: &impl Print, t: &[u8]) -> io::Result<()> {
    text(rt, t)?;
    text(rt, b"\n")
}

// A number, then a text.
pub fn number(rt: &impl Print, n: u64, behind: &[u8]) -> io::Result<()> {
    print!(rt; "{n}")?;
    text(rt, behind)
}

// What the rest of the line is about.
pub fn label(rt: &impl Print, t: &[u8]) -> io::Result<()> {
    text(rt, t)?;
    text(rt, b": ")
}

// A refusal's number and place.
pub fn refusal(rt: &impl Print, n: u32, place: usize) -> io::Result<()> {
    println!(rt; "R {n} {place}")
}
