// The refusals before the model's own: 10, then 9; and models of 262,144 and 262,145 bytes.
#![tactic(auto)]

use check_hex::report;
use std::io;

// The longest model that is accepted, and a byte more.
const MOST: usize = 262144;

const ROOM: usize = MOST + 1;

// The sum of two offsets, 0 where one is past the room.
fn sum(a: usize, b: usize) -> usize {
    if a <= ROOM {
        if b <= ROOM {
            return a + b;
        }
    }
    0
}

// More bytes behind those that are there; how many there are then.
fn add(room: &mut [u8], at: usize, text: &[u8]) -> usize {
    if room.len() < at {
        return 0;
    }
    sum(at, check_hex::bytes_of(text, &mut room[at..]))
}

// An accepted model of 454 bytes and 39 for each turn, with eight levels and an end worth: its reward is a choice over as many
// leaves and one.
fn fill(room: &mut [u8], turns: usize) -> usize {
    let mut at = add(room, 0, b"S 08 01 01A 01 P");
    for _ in 0..turns {
        at = add(room, at, b"P 11 01");
    }
    add(
        room,
        at,
        b"20 01A P 21 01A 01 P 22 01A 01 P 22 01A 02 P 22 01A 03 P 22 01A 04 P 22 01A 05 P 22 01A 06 P 22 01A 07 P 22 01A 08 P 23 ff",
    )
}

fn print(rt: &impl Print, name: &[u8], v: model::Verdict) -> io::Result<()> {
    report::label(rt, name)?;
    report::refusal(rt, v.number, v.place)
}

// The first n bytes, asked for some steps with some stage words.
fn early(
    rt: &impl Print,
    name: &[u8],
    room: &[u8],
    n: usize,
    steps: u32,
    words: usize,
) -> io::Result<()> {
    if room.len() < n {
        return Ok(());
    }
    print(rt, name, model::early(&room[..n], steps, words))
}

fn validate(rt: &impl Print, name: &[u8], room: &[u8], n: usize) -> io::Result<()> {
    if room.len() < n {
        return Ok(());
    }
    print(rt, name, model::validate(&room[..n]))
}

fn short(rt: &impl Print, room: &[u8]) -> io::Result<()> {
    early(rt, b"262,144 bytes", room, MOST, 1, 8)?;
    early(rt, b"262,144 bytes, 8 steps", room, MOST, 8, 8)?;
    early(rt, b"262,143 bytes", room, MOST - 1, 1, 8)
}

fn long(rt: &impl Print, room: &[u8]) -> io::Result<()> {
    early(rt, b"262,145 bytes", room, ROOM, 1, 8)?;
    early(rt, b"262,145 bytes, 9 steps", room, ROOM, 9, 8)?;
    validate(rt, b"262,145 bytes, judged", room, ROOM)
}

fn steps(rt: &impl Print, room: &[u8]) -> io::Result<()> {
    early(rt, b"0 steps", room, MOST, 0, 8)?;
    early(rt, b"9 steps", room, MOST, 9, 8)?;
    early(rt, b"4294967295 steps", room, MOST, 4294967295, 8)?;
    early(rt, b"0 steps, no model", room, 0, 0, 8)?;
    early(rt, b"1 step, no model", room, 0, 1, 8)
}

fn words(rt: &impl Print, room: &[u8]) -> io::Result<()> {
    early(rt, b"7 stage words", room, MOST, 1, 7)?;
    early(rt, b"9 stage words, 0 steps", room, MOST, 0, 9)?;
    early(rt, b"no stage words, no model", room, 0, 1, 0)?;
    early(rt, b"a cut site", room, 4, 1, 8)
}

fn run(rt: &impl Print, room: &mut [u8]) -> io::Result<()> {
    let n = fill(room, 6710);
    report::number(rt, n as u64, b" bytes are written\n")?;
    short(rt, room)?;
    long(rt, room)?;
    steps(rt, room)?;
    words(rt, room)
}

fn main(rt: HostRuntime) -> io::Result<()> {
    let mut room = [0u8; ROOM];
    run(&rt, &mut room)
}
