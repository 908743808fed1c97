// Verdicts of the models on standard input, a line each: a label, a colon, and the model as hexadecimal text.
// A line without a colon is copied.
#![tactic(auto)]

use check_hex::{find, report};
use std::io;
use text_read::read_full;

// The label, then the number and the place.
fn judge(rt: &impl Print, name: &[u8], text: &[u8], room: &mut [u8]) -> io::Result<()> {
    let n = check_hex::bytes_of(text, room);
    let v = model::validate(&room[..n]);
    report::label(rt, name)?;
    report::refusal(rt, v.number, v.place)
}

fn line(rt: &impl Print, text: &[u8]) -> io::Result<()> {
    let k = find(text, 0, b':');
    if k == text.len() {
        return report::line(rt, text);
    }
    let mut room = [0u8; 2048];
    judge(rt, &text[..k], &text[k..], &mut room)
}

fn lines(rt: &impl Print, text: &[u8]) -> io::Result<()> {
    let mut at: usize = 0;
    // No `for`: a line has any length.
    while at < text.len() {
        let end = find(text, at, b'\n');
        line(rt, &text[at..end])?;
        at = end + 1;
    }
    Ok(())
}

fn all(rt: &(impl Input + Print), room: &mut [u8]) -> io::Result<()> {
    let n = read_full(&mut rt.reader(), room)?;
    lines(rt, &room[..n])
}

fn main(rt: HostRuntime) -> io::Result<()> {
    let mut room = [0u8; 32768];
    all(&rt, &mut room)
}
