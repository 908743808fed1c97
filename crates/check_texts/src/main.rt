// Where the texts on standard input stop, a line each: the text, and below it the number and the place.
#![tactic(auto)]

use check_hex::{find, report};
use std::io;
use text_read::read_full;

// "Text outside the grammar with 24".
const OUTSIDE: u32 = 24;

fn line(rt: &impl Print, text: &[u8]) -> io::Result<()> {
    report::line(rt, text)?;
    match import_scan::scan(text) {
        Ok(()) => report::refusal(rt, 0, 0),
        Err(i) => report::refusal(rt, OUTSIDE, i),
    }
}

fn lines(rt: &impl Print, text: &[u8]) -> io::Result<()> {
    let mut at: usize = 0;
    // No `for`: a line has any length.
    while at < text.len() {
        let end = find(text, at, b'\n');
        line(rt, &text[at..end])?;
        at = end + 1;
    }
    Ok(())
}

fn all(rt: &(impl Input + Print), room: &mut [u8]) -> io::Result<()> {
    let n = read_full(&mut rt.reader(), room)?;
    lines(rt, &room[..n])
}

fn main(rt: HostRuntime) -> io::Result<()> {
    let mut room = [0u8; 8192];
    all(&rt, &mut room)
}
