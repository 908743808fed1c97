// Plain working of the states on standard input, a line each: a label, a colon, and as hexadecimal text the steps left, the mask,
// the numerators of eight levels and the denominator, four bytes each, then the model. A line without a colon is copied.
#![tactic(auto)]

ghost use Rattle.std.specs.Prelude.{◌<◌};

use check_hex::{find, report};
use std::io;
use text_read::read_full;
use whole::NUMBERS;

// Bytes of a number; where the numerators begin, behind the steps left and the mask; where the model begins.
const WORD: usize = 4;

const NUMERATORS: usize = 2 * WORD;

const MODEL: usize = NUMERATORS + NUMBERS * WORD;

fn byte(input: &[u8], at: usize) -> u32
    ensures { result < 256 }
{
    model_command::byte_at(input, at) as u32
}

// Four bytes, low byte first.
fn word(input: &[u8], at: usize) -> u32
    requires { at < 65536 }
{
    byte(input, at)
        + byte(input, at + 1) * 256
        + byte(input, at + 2) * 65536
        + byte(input, at + 3) * 16777216
}

fn signed(n: u32) -> i32 {
    if n < 2147483648 {
        n as i32
    } else {
        let k = 4294967295 - n;
        -1 - (k as i32)
    }
}

fn level(input: &[u8], at: usize) -> i32
    requires { at < 65536 }
{
    signed(word(input, at))
}

// A numerator's two words, the low one first.
fn numerator(rt: &impl Print, x: whole::Numerator) -> io::Result<()> {
    report::number(rt, x.low, b" ")?;
    if x.high < 0 {
        report::text(rt, b"-")?;
    }
    report::number(rt, whole::limits::mag(x.high), b"\n")
}

// The number and place, the action, and the numerator.
fn show(rt: &impl Print, v: value_walk::Value) -> io::Result<()> {
    report::number(rt, v.number as u64, b" ")?;
    report::number(rt, v.place as u64, b" ")?;
    report::number(rt, v.action as u64, b" ")?;
    numerator(rt, v.numerator)
}

fn numerators(input: &[u8]) -> [i32; NUMBERS] {
    let mut n = [0i32; NUMBERS];
    for i in 0..NUMBERS {
        n[i] = level(input, NUMERATORS + i * WORD);
    }
    n
}

// The worth of the state that the input begins with.
fn asked(input: &[u8], model: &[u8]) -> value_walk::Value {
    let mask = word(input, WORD);
    let n = numerators(input);
    plain_worth::worth(model, word(input, 0), value_walk::Asked { mask, n })
}

fn work(rt: &impl Print, name: &[u8], input: &[u8]) -> io::Result<()> {
    if input.len() < MODEL {
        return Ok(());
    }
    report::label(rt, name)?;
    show(rt, asked(input, &input[MODEL..]))
}

fn row(rt: &impl Print, name: &[u8], text: &[u8], room: &mut [u8]) -> io::Result<()> {
    let n = check_hex::bytes_of(text, room);
    work(rt, name, &room[..n])
}

fn line(rt: &impl Print, text: &[u8]) -> io::Result<()> {
    let k = find(text, 0, b':');
    if k == text.len() {
        return report::line(rt, text);
    }
    let mut room = [0u8; 1024];
    row(rt, &text[..k], &text[k..], &mut room)
}

fn lines(rt: &impl Print, text: &[u8]) -> io::Result<()> {
    let mut at: usize = 0;
    // No `for`: a line has any length.
    while at < text.len() {
        let end = find(text, at, b'\n');
        line(rt, &text[at..end])?;
        at = end + 1;
    }
    Ok(())
}

fn all(rt: &(impl Input + Print), room: &mut [u8]) -> io::Result<()> {
    let n = read_full(&mut rt.reader(), room)?;
    lines(rt, &room[..n])
}

fn main(rt: HostRuntime) -> io::Result<()> {
    let mut room = [0u8; 32768];
    all(&rt, &mut room)
}
