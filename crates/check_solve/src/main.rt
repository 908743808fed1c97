// Solving and reading: the pond and the rain at all horizons, tables exactly large enough and one node short, the
// refusals of both calls, the pond with an end worth, and the same tables lent again and again.
#![tactic(auto)]

ghost use Rattle.std.specs.Prelude.{◌≤◌, length};

use solve_tables::{PEAK_WORDS, Solved, solve};
use std::io;
use value_read::value;
use value_walk::{Asked, Value};

// Room for 256 nodes.
const ROOM: usize = 256;

const NODES: usize = 3072;

const WORK: usize = 2048;

// One byte more than a model may have.
const TOO_LONG: usize = 262145;

// The models lie one after another: the pond's from 0, the rain's, one with weights of 100, and the pond's with the end
// worth L1.
const RAIN: usize = 317;

const WEIGHTS: usize = 485;

const ENDED: usize = 737;

const END: usize = 1092;

// A part of the models' bytes.
#[derive(Clone, Copy)]
struct Part {
    from: usize,
    to: usize,
}

// A solve: its name and its model by number, the horizon, the room in nodes, the stage words.
#[derive(Clone, Copy)]
struct Case {
    name: usize,
    model: usize,
    horizon: u32,
    room: usize,
    roots: usize,
}

fn text(rt: &impl Print, s: &[u8]) -> io::Result<()> {
    rt.write_all(s)
}

fn number(rt: &impl Print, x: u64) -> io::Result<()> {
    print!(rt; "{x} ")
}

fn labelled(rt: &impl Print, label: &[u8], x: u64) -> io::Result<()> {
    text(rt, label)?;
    number(rt, x)
}

// Some numbers to the line's end.
fn numbers(rt: &impl Print, label: &[u8], xs: &[u32]) -> io::Result<()> {
    text(rt, label)?;
    for &x in xs {
        number(rt, u64::from(x))?;
    }
    text(rt, b"\n")
}

// A byte of a name.
fn name_byte(rt: &impl Print, b: u8) -> io::Result<()> {
    if b != b';' {
        let one = [b];
        text(rt, &one)?;
    }
    Ok(())
}

// The name's number after a byte.
fn after(k: usize, b: u8) -> usize {
    if b == b';' && k < 1000 { k + 1 } else { k }
}

// The name with a number in a list.
fn print_name(rt: &impl Print, names: &[u8], k: usize) -> io::Result<()> {
    let mut at: usize = 0;
    for &b in names {
        if at == k {
            name_byte(rt, b)?;
        }
        at = after(at, b);
    }
    Ok(())
}

// A line's begin: what is solved, in which room.
fn print_case(rt: &impl Print, c: Case) -> io::Result<()> {
    print_name(
        rt,
        b"pond;rain;no step;nine steps;no model;262,145 bytes;seven stage words;weights of 100;pond with an end worth",
        c.name,
    )?;
    labelled(rt, b", horizon ", c.horizon as u64)?;
    labelled(rt, b"room ", c.room as u64)
}

// Its end: number, place, peak; the roots of the first stages.
fn print_solved(rt: &impl Print, r: Solved, stages: &[u32], n: usize) -> io::Result<()> {
    labelled(rt, b": ", r.number as u64)?;
    number(rt, r.place as u64)?;
    labelled(rt, b"peak ", r.peak as u64)?;
    if n <= stages.len() {
        numbers(rt, b"roots ", &stages[..n])?;
    }
    Ok(())
}

// The answer's low word, and whether it lies below 0.
fn print_numerator(rt: &impl Print, n: whole::Numerator) -> io::Result<()> {
    number(rt, n.low)?;
    if n.high < 0 {
        text(rt, b"below 0")?;
    }
    text(rt, b"\n")
}

// A line: the steps left, number, place and action, the value.
fn print_value(rt: &impl Print, label: &[u8], steps: u32, v: Value) -> io::Result<()> {
    text(rt, label)?;
    labelled(rt, b", steps ", steps as u64)?;
    labelled(rt, b": ", v.number as u64)?;
    number(rt, v.place as u64)?;
    labelled(rt, b"action ", v.action as u64)?;
    let n = v.numerator;
    print_numerator(rt, n)
}

// The bytes of the model with a number; 3 is no model.
fn part_of(model: usize) -> Part
    ensures { (result.from ≤ result.to) × (result.to ≤ 65536) }
{
    match model {
        0 => Part { from: 0, to: RAIN },
        1 => Part {
            from: RAIN,
            to: WEIGHTS,
        },
        2 => Part {
            from: WEIGHTS,
            to: ENDED,
        },
        5 => Part {
            from: ENDED,
            to: END,
        },
        _ => Part { from: 0, to: 0 },
    }
}

// The node words that a room takes.
fn node_words(room: usize) -> usize
    ensures { result ≤ 3072 }
{
    if room < ROOM { room * 12 } else { NODES }
}

// The work words that it takes.
fn work_words(room: usize) -> usize
    ensures { result ≤ 2048 }
{
    if room < ROOM { room * 8 } else { WORK }
}

// The peaks are lent, and not looked at.
fn solve_lent(
    model: &[u8],
    horizon: u32,
    nodes: &mut [i64],
    stages: &mut [u32],
    work: &mut [u32],
) -> Solved {
    let mut peaks = [5u32; PEAK_WORDS];
    solve(model, horizon, nodes, stages, work, &mut peaks)
}

// A model that is too long, all zeros.
fn solve_too_long(horizon: u32, nodes: &mut [i64], stages: &mut [u32], work: &mut [u32]) -> Solved {
    let model = [0u8; TOO_LONG];
    solve_lent(&model, horizon, nodes, stages, work)
}

// A number up to a most.
fn least(a: usize, most: usize) -> usize
    ensures { result ≤ most }
{
    if a < most { a } else { most }
}

// Solved in as much of the tables as the case has.
fn solve_case(
    models: &[u8],
    c: Case,
    nodes: &mut [i64],
    stages: &mut [u32],
    work: &mut [u32],
) -> Solved
    requires { (65536 ≤ length models.now) × (3072 ≤ length nodes.old) × (8 ≤ length stages.old) × (2048 ≤ length work.old) }
{
    if c.model == 4 {
        return solve_too_long(c.horizon, nodes, stages, work);
    }
    let p = part_of(c.model);
    let from = p.from;
    let to = p.to;
    let n = node_words(c.room);
    let w = work_words(c.room);
    let roots = least(c.roots, 8);
    solve_lent(
        &models[from..to],
        c.horizon,
        &mut nodes[..n],
        &mut stages[..roots],
        &mut work[..w],
    )
}

// The first room has some to spare, the second lacks one node of its peak, the third has just that.
fn next_room(turn: usize, room: usize, peak: usize) -> usize {
    if turn == 1 {
        if peak > 0 {
            return peak - 1;
        }
    }
    if turn == 2 {
        if room < ROOM {
            return room + 1;
        }
    }
    ROOM
}

// A model at all horizons, each three times.
fn at_horizon(model: usize, i: u32, room: usize, peak: usize) -> Case {
    Case {
        name: model,
        model,
        horizon: 1 + i / 3,
        room: next_room((i % 3) as usize, room, peak),
        roots: 8,
    }
}

// A digit of a text.
fn digit(text: &[u8], i: usize) -> u8 {
    if i < text.len() {
        let c = text[i];
        if c > 48 {
            return c - 48;
        }
    }
    0
}

// The solves in a list: name, model, horizon and stage words of each.
fn listed(rows: &[u8], k: usize) -> Case {
    if k > 1000 {
        return at_horizon(0, 0, 0, 0);
    }
    let i = k * 5;
    Case {
        name: digit(rows, i) as usize,
        model: digit(rows, i + 1) as usize,
        horizon: digit(rows, i + 2) as u32,
        room: ROOM,
        roots: digit(rows, i + 3) as usize,
    }
}

// Each solve after the last one's room and peak. The pond at all horizons, then at horizon 2 in each room up to its
// peak of 21; the rain; 9, 10 and the model's own, which leave everything as it was; 10 before 9; and where W is 100
// and there are four conditions, 100 to the power of 4 × 3, which leaves the limits. Last the pond with an end worth.
fn case_at(i: u32, room: usize, peak: usize) -> Case {
    if i < 24 {
        return at_horizon(0, i, room, peak);
    }
    if i < 46 {
        return Case {
            name: 0,
            model: 0,
            horizon: 2,
            room: (i - 24) as usize,
            roots: 8,
        };
    }
    if i < 70 {
        return at_horizon(1, i - 46, room, peak);
    }
    listed(
        b"0028 2008 3098 4328 5498 6097 7228 7238 7288 8518 8528 8588",
        (i - 70) as usize,
    )
}

// A state by its mask, the first four of its numerators and the denominator.
fn state(mask: u32, l1: i32, l2: i32, l3: i32, l4: i32, d: i32) -> Asked {
    Asked {
        mask,
        n: [l1, l2, l3, l4, 0, 0, 0, 0, d],
    }
}

// The value at a level with each number of steps left, and with too few and too many.
fn all_steps(
    rt: &impl Print,
    label: &[u8],
    model: &[u8],
    nodes: &[i64],
    stages: &[u32],
    mask: u32,
    l: i32,
    d: i32,
) -> io::Result<()> {
    for h in 0..10 {
        print_value(
            rt,
            label,
            h,
            value(model, nodes, stages, h, state(mask, l, 0, 0, 0, d)),
        )?;
    }
    Ok(())
}

fn pond_values(rt: &impl Print, model: &[u8], nodes: &[i64], stages: &[u32]) -> io::Result<()> {
    all_steps(rt, b"at 20", model, nodes, stages, 0, 20, 1)?;
    all_steps(rt, b"at 39/2", model, nodes, stages, 0, 39, 2)?;
    all_steps(rt, b"at -5", model, nodes, stages, 0, -5, 1)
}

fn ended_values(rt: &impl Print, model: &[u8], nodes: &[i64], stages: &[u32]) -> io::Result<()> {
    all_steps(rt, b"at 20, end worth", model, nodes, stages, 0, 20, 1)?;
    all_steps(rt, b"at 39/2, end worth", model, nodes, stages, 0, 39, 2)?;
    all_steps(rt, b"at -5, end worth", model, nodes, stages, 0, -5, 1)
}

fn rain_values(rt: &impl Print, model: &[u8], nodes: &[i64], stages: &[u32]) -> io::Result<()> {
    all_steps(rt, b"at 200, dry", model, nodes, stages, 0, 200, 1)?;
    all_steps(rt, b"at 200, rain", model, nodes, stages, 1, 200, 1)?;
    all_steps(rt, b"at -1000/3, rain", model, nodes, stages, 1, -1000, 3)
}

// 13, 15 and 14, the first that applies.
fn refused_values(rt: &impl Print, model: &[u8], nodes: &[i64], stages: &[u32]) -> io::Result<()> {
    print_value(
        rt,
        b"D 0",
        2,
        value(model, nodes, stages, 2, state(0, 20, 0, 0, 0, 0)),
    )?;
    print_value(
        rt,
        b"mask 1 of no condition",
        2,
        value(model, nodes, stages, 2, state(1, 20, 0, 0, 0, 1)),
    )?;
    print_value(
        rt,
        b"level 2 of 1",
        2,
        value(model, nodes, stages, 2, state(0, 20, 1, 0, 0, 1)),
    )?;
    print_value(
        rt,
        b"level 4 of 1, no stage",
        3,
        value(model, nodes, stages, 3, state(0, 20, 0, 0, 1, 1)),
    )?;
    print_value(
        rt,
        b"no stage",
        3,
        value(model, nodes, stages, 3, state(0, 20, 0, 0, 0, 1)),
    )?;
    print_value(
        rt,
        b"no table",
        2,
        value(model, &nodes[..0], stages, 2, state(0, 20, 0, 0, 0, 1)),
    )?;
    print_value(
        rt,
        b"no stage words",
        2,
        value(model, nodes, &stages[..0], 2, state(0, 20, 0, 0, 0, 1)),
    )
}

// What is read after a solve.
fn print_values(
    rt: &impl Print,
    i: u32,
    models: &[u8],
    nodes: &[i64],
    stages: &[u32],
) -> io::Result<()> {
    if models.len() < END {
        return Ok(());
    }
    if i == 23 {
        pond_values(rt, &models[..RAIN], nodes, stages)?;
    }
    if i == 69 {
        rain_values(rt, &models[RAIN..WEIGHTS], nodes, stages)?;
    }
    if i == 75 {
        refused_values(rt, &models[..RAIN], nodes, stages)?;
    }
    if i == 81 {
        ended_values(rt, &models[ENDED..END], nodes, stages)?;
    }
    Ok(())
}

// A solve and its line; answers the peak.
fn solved(
    rt: &impl Print,
    models: &[u8; 65536],
    c: Case,
    nodes: &mut [i64; NODES],
    stages: &mut [u32; 8],
    work: &mut [u32; WORK],
) -> io::Result<usize> {
    let r = solve_case(models, c, nodes, stages, work);
    print_case(rt, c)?;
    print_solved(rt, r, stages, c.roots)?;
    Ok(r.peak)
}

// All solves in the same tables.
fn all_solves(
    rt: &impl Print,
    models: &[u8; 65536],
    nodes: &mut [i64; NODES],
    stages: &mut [u32; 8],
    work: &mut [u32; WORK],
) -> io::Result<()> {
    let mut room: usize = 0;
    let mut peak: usize = 0;
    for i in 0..82 {
        let c = case_at(i, room, peak);
        room = c.room;
        peak = solved(rt, models, c, nodes, stages, work)?;
        print_values(rt, i, models, nodes, stages)?;
    }
    Ok(())
}

// Solved in new tables.
fn fresh(models: &[u8; 65536], c: Case, nodes: &mut [i64; NODES]) -> Solved {
    let mut stages = [0u32; 8];
    let mut work = [0u32; WORK];
    solve_case(models, c, nodes, &mut stages, &mut work)
}

fn same_words(a: &[i64; NODES], b: &[i64; NODES]) -> bool {
    a == b
}

fn same_numbers(r: Solved, s: Solved) -> bool {
    r.number == s.number && r.place == s.place && r.peak == s.peak
}

// One more solve in the lent tables: as in new ones?
fn again(
    models: &[u8; 65536],
    c: Case,
    nodes: &mut [i64; NODES],
    stages: &mut [u32; 8],
    work: &mut [u32; WORK],
) -> bool {
    let mut other = [0i64; NODES];
    let s = fresh(models, c, &mut other);
    let r = solve_case(models, c, nodes, stages, work);
    same_numbers(r, s) && same_words(nodes, &other)
}

// The models in turn at changing horizons.
fn in_turn(i: u32) -> Case {
    Case {
        name: 0,
        model: (i % 3) as usize,
        horizon: 1 + i % 8,
        room: ROOM,
        roots: 8,
    }
}

// 240 times in the same tables.
fn refilled(
    rt: &impl Print,
    models: &[u8; 65536],
    nodes: &mut [i64; NODES],
    stages: &mut [u32; 8],
    work: &mut [u32; WORK],
) -> io::Result<()> {
    let mut alike: u64 = 0;
    for i in 0..240 {
        if again(models, in_turn(i), nodes, stages, work) && alike < 240 {
            alike += 1;
        }
    }
    number(rt, alike)?;
    text(rt, b"of 240 as in new tables\n")
}

fn run(rt: &impl Print, models: &[u8; 65536]) -> io::Result<()> {
    let mut nodes = [-1i64; NODES];
    let mut stages = [7u32; 8];
    let mut work = [9u32; WORK];
    all_solves(rt, models, &mut nodes, &mut stages, &mut work)?;
    refilled(rt, models, &mut nodes, &mut stages, &mut work)
}

fn main(rt: HostRuntime) -> io::Result<()> {
    let mut models = [0u8; 65536];
    check_hex::bytes_of(
        b"S 01 00 02A 01 P 20 01A 10 01000000 OOOKO 22 01A 01 10 OOOOK 32000000 10 OOOOK ffffffff 12 ffffffff OOOK 0a000000 20 02A 10 01000000 OOOK \
        f6ffffff 10 01000000 OOOKO 12 ffffffff OOOK 0a000000 22 02A 01 ff \
        | S 01 01 01A 0a 10 01000000 OOOKO 20 01A 10 OOOOK 07000000 21 01A 01 10 01000000 OOOK 6affffff 10 01000000 OOOK ceffffff 11 05 22 01A 01 ff \
        | S 01 04 01A 64 10 01000000 OOOKO 20 01A 10 OOOOK 32000000 21 01A 01 10 OOOOK 64000000 21 01A 02 P 21 01A 03 10 OOOOK 01000000 21 01A 04 10 \
        01000000 OOOKO 22 01A 01 ff \
        | S 01 00 02A 01 P 20 01A 10 01000000 OOOKO 22 01A 01 10 OOOOK 32000000 10 OOOOK ffffffff 12 ffffffff OOOK 0a000000 20 02A 10 01000000 OOOK \
        f6ffffff 10 01000000 OOOKO 12 ffffffff OOOK 0a000000 22 02A 01 10 01000000 OOOKO 23 ff",
        &mut models,
    );
    run(&rt, &models)
}
