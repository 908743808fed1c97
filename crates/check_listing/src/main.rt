// Listings of the pond from tables that are filled by hand: whole, from a place, of a smaller horizon, and each refusal.
// The buffer is full of dots before, so that they show what stays untouched.
#![tactic(auto)]

use check_hex::report;
use std::io;
use table::{HIGH, LOW, NODE_WORDS};
use whole::NUMBERS;

// The words of seven nodes.
const SEVEN: usize = 7 * NODE_WORDS;

// The bytes of the pond, of its listing, and of the buffer.
const POND: usize = 317;

const TEXT: usize = 225;

const ROOM: usize = TEXT + 7;

fn print(rt: &impl Print, name: &[u8], r: text_listing::Listed, room: &[u8]) -> io::Result<()> {
    report::label(rt, name)?;
    report::number(rt, r.number as u64, b" ")?;
    report::number(rt, r.place as u64, b", size ")?;
    report::number(rt, r.size as u64, b"\n")?;
    report::line(rt, room)
}

// A listing into the first n bytes of a buffer of at least n.
fn into(
    model: &[u8],
    horizon: u32,
    nodes: &[i64],
    stages: &[u32],
    room: &mut [u8],
    n: usize,
    place: usize,
) -> text_listing::Listed {
    if room.len() < n {
        return text_listing::Listed {
            number: 0,
            place: 0,
            size: 0,
        };
    }
    text_listing::listing(model, horizon, nodes, stages, &mut room[..n], place)
}

// A listing into the first n bytes of a new buffer.
fn list(
    rt: &impl Print,
    name: &[u8],
    model: &[u8],
    horizon: u32,
    nodes: &[i64],
    stages: &[u32],
    n: usize,
    place: usize,
) -> io::Result<()> {
    let mut room = [46u8; ROOM];
    let r = into(model, horizon, nodes, stages, &mut room, n, place);
    print(rt, name, r, &room)
}

fn set(nodes: &mut [i64], at: usize, z: i64) {
    if at < nodes.len() {
        nodes[at] = z;
    }
}

// Node r + 1 of a table of zeros: its kind, the coefficient of L1, the constant, high and low.
fn row(nodes: &mut [i64], r: u8, kind: i64, first: i64, constant: i64, high: i64, low: i64) {
    let at = (r as usize) * NODE_WORDS;
    set(nodes, at, kind);
    set(nodes, at + 1, first);
    set(nodes, at + NUMBERS, constant);
    set(nodes, at + HIGH, high);
    set(nodes, at + LOW, low);
}

// The pond's seven nodes.
fn seven(nodes: &mut [i64]) {
    row(nodes, 0, 0, 0, 50, 2, 0);
    row(nodes, 1, 0, 0, 0, 1, 0);
    row(nodes, 2, 2, -1, 10, 1, 2);
    row(nodes, 3, 0, 0, 100, 2, 0);
    row(nodes, 4, 0, 0, 50, 1, 0);
    row(nodes, 5, 2, -1, 20, 4, 5);
    row(nodes, 6, 2, -1, 10, 6, 2);
}

// A listing of the seven nodes.
fn of_model(
    rt: &impl Print,
    name: &[u8],
    model: &[u8],
    horizon: u32,
    stages: &[u32],
    n: usize,
    place: usize,
) -> io::Result<()> {
    let mut nodes = [0i64; SEVEN];
    seven(&mut nodes);
    list(rt, name, model, horizon, &nodes, stages, n, place)
}

fn pond(room: &mut [u8]) {
    check_hex::bytes_of(
        b"S 01 00 02A 01 P 20 01A 10 01000000 OOOKO 22 01A 01 10 OOOOK 32000000 10 OOOOK ffffffff 12 ffffffff OOOK 0a000000 20 02A 10 01000000 OOOK f6ffffff 10 01000000 OOOKO 12 ffffffff OOOK 0a000000 22 02A 01 ff",
        room,
    );
}

fn from_stages(
    rt: &impl Print,
    name: &[u8],
    horizon: u32,
    stages: &[u32],
    n: usize,
    place: usize,
) -> io::Result<()> {
    let mut model = [0u8; POND];
    pond(&mut model);
    of_model(rt, name, &model, horizon, stages, n, place)
}

// Stages 1 and 2 have a root.
fn from_two(rt: &impl Print, name: &[u8], horizon: u32, n: usize, place: usize) -> io::Result<()> {
    let stages: [u32; 8] = [3, 7, 0, 0, 0, 0, 0, 0];
    from_stages(rt, name, horizon, &stages, n, place)
}

fn places(rt: &impl Print) -> io::Result<()> {
    from_two(rt, b"whole", 2, TEXT, 0)?;
    from_two(rt, b"one short", 2, TEXT - 1, 0)?;
    from_two(rt, b"from 3", 2, ROOM, 3)?;
    from_two(rt, b"from 7", 2, ROOM, 7)?;
    from_two(rt, b"from 8", 2, ROOM, 8)?;
    from_two(rt, b"at the end", 2, ROOM, ROOM)?;
    from_two(rt, b"past the end", 2, ROOM, ROOM + 1)?;
    from_two(rt, b"far past the end", 2, ROOM, 18446744073709551615)
}

fn horizons(rt: &impl Print) -> io::Result<()> {
    from_two(rt, b"horizon 1", 1, ROOM, 0)?;
    from_two(rt, b"stage 3 without a root", 3, 1, 0)?;
    from_two(rt, b"horizon 0", 0, ROOM, 0)?;
    from_two(rt, b"horizon 9", 9, ROOM, 0)
}

fn refusals(rt: &impl Print) -> io::Result<()> {
    from_stages(rt, b"seven stage words", 9, &[3, 7, 0, 0, 0, 0, 0], ROOM, 0)?;
    of_model(
        rt,
        b"no end command",
        b"",
        2,
        &[3, 7, 0, 0, 0, 0, 0, 0],
        ROOM,
        0,
    )?;
    from_stages(
        rt,
        b"root 8 of 7 nodes",
        2,
        &[3, 8, 0, 0, 0, 0, 0, 0],
        ROOM,
        0,
    )?;
    from_stages(
        rt,
        b"greatest root far outside",
        2,
        &[4294967295, 7, 0, 0, 0, 0, 0, 0],
        ROOM,
        0,
    )
}

// A listing of a table of one node.
fn of_one(
    rt: &impl Print,
    name: &[u8],
    kind: i64,
    first: i64,
    high: i64,
    low: i64,
) -> io::Result<()> {
    let mut model = [0u8; POND];
    pond(&mut model);
    let mut nodes = [0i64; NODE_WORDS];
    row(&mut nodes, 0, kind, first, 0, high, low);
    let stages: [u32; 8] = [1, 0, 0, 0, 0, 0, 0, 0];
    list(rt, name, &model, 1, &nodes, &stages, ROOM, 0)
}

fn other_nodes(rt: &impl Print) -> io::Result<()> {
    of_one(rt, b"a condition that is none", 1, 1, 1, 1)?;
    of_one(rt, b"a leaf none", 3, 0, 0, 0)?;
    of_one(rt, b"a leaf none with an action", 3, 0, 1, 0)?;
    of_one(rt, b"kind 4", 4, 0, 0, 0)
}

fn main(rt: HostRuntime) -> io::Result<()> {
    places(&rt)?;
    horizons(&rt)?;
    refusals(&rt)?;
    other_nodes(&rt)
}
