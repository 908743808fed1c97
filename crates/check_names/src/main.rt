// Names without their trailing spaces, and the refusals of a name.
#![tactic(auto)]

use check_hex::report;
use std::io;

// The name in brackets, then the call's number and place.
fn show(rt: &impl Print, of: &[u8], input: &[u8], action: u32) -> io::Result<()> {
    let v = model_names::name_refusal(input, action);
    report::text(rt, of)?;
    report::text(rt, b" ")?;
    report::number(rt, action as u64, b": [")?;
    report::text(rt, model_names::name(input, action))?;
    report::text(rt, b"] ")?;
    report::refusal(rt, v.number, v.place)
}

fn all(rt: &impl Print, of: &[u8], input: &[u8]) -> io::Result<()> {
    for action in 0u32..8 {
        show(rt, of, input, action)?;
    }
    Ok(())
}

// The first n bytes.
fn cut(rt: &impl Print, of: &[u8], input: &[u8], n: usize, action: u32) -> io::Result<()> {
    if n <= input.len() {
        show(rt, of, &input[..n], action)?;
    }
    Ok(())
}

fn cases(rt: &impl Print, input: &[u8]) -> io::Result<()> {
    all(rt, b"named", input)?;
    show(rt, b"named", input, 257)?;
    cut(rt, b"without end", input, 587, 1)?;
    cut(rt, b"cut in a command", input, 26, 2)?;
    cut(rt, b"empty", input, 0, 1)
}

// Six actions: 2 is named first, 6 not at all.
fn named(rt: &impl Print, room: &mut [u8]) -> io::Result<()> {
    let n = check_hex::bytes_of(
        b"S 01 00 06A 01 30 02A 20746f20207468652020706f6e642020
        P 20 01A P 22 01A 01 P 20 02A P 22 02A 01 30 01A 486f6c64202020202020202020202020 P 20 03A P 22 03A 01 P 20 04A P 22 04A 01 30 03A 6162636465666768696a6b6c6d6e6f70
        30 04A 20202020202020202020202020202020 30 05A 20202020202020202020202020202078 P 20 05A P 22 05A 01 P 20 06A P 22 06A 01 ff",
        room,
    );
    cases(rt, &room[..n])
}

fn main(rt: HostRuntime) -> io::Result<()> {
    let mut room = [0u8; 1024];
    named(&rt, &mut room)
}
