// The pond's stages step by step: each operation of horizon 2 by itself, with the count of nodes after it, the peak and the
// node that it came to; then the canonical tables, as a listing.
#![tactic(auto)]

ghost use Rattle.std.specs.Prelude.{◌≡◌, true, ◌≤◌, ◌<◌, length, IfOk, OnErr};
ghost use Rattle.theory.specs.Widths.{bytes_most, roots_most};
ghost use Rattle.theory.specs.Verdict.{verdict};
ghost use Rattle.solve_operation.specs.Operation.{FitsRule, Standing};
ghost use Rattle.table_unique.specs.Unique.{Space};
ghost use Rattle.load_model.specs.ModelRoots.{Loads};
ghost use Rattle.load_model.specs.declared.Done.{Done};
ghost use Rattle.check_pond.specs.Left.{OperatedOnce, LeftMidway};

use solve_operation::{Rule, Run, operate};
use solve_value_iteration::ROOTS;
use std::io;
use table::NODE_WORDS;
use table_unique::WORK_WORDS;

// The words of 32 nodes.
const NODES_WORDS: usize = 32 * NODE_WORDS;

const NODES_WORK: usize = 32 * WORK_WORDS;

fn text(rt: &impl Print, s: &[u8]) -> io::Result<()> {
    rt.write_all(s)
}

fn number(rt: &impl Print, x: u64) -> io::Result<()> {
    print!(rt; "{x} ")
}

fn pair(rt: &impl Print, x: u64, y: u64) -> io::Result<()> {
    number(rt, x)?;
    number(rt, y)
}

// A line's end: some words and a number.
fn ending(rt: &impl Print, words: &[u8], x: u64) -> io::Result<()> {
    text(rt, words)?;
    number(rt, x)?;
    text(rt, b"\n")
}

fn signed(rt: &impl Print, z: i64) -> io::Result<()> {
    if z < 0 {
        text(rt, b"-")?;
    }
    number(rt, whole::limits::mag(z))
}

// The words of a node.
fn node(rt: &impl Print, nodes: &[i64], at: u32) -> io::Result<()> {
    let from = at as usize * NODE_WORDS;
    for i in 0..NODE_WORDS {
        if from + i < nodes.len() {
            signed(rt, nodes[from + i])?;
        }
    }
    text(rt, b"\n")
}

// Where the steps stand: what stopped them, or 0; how many nodes there are; the peak; how many roots are held.
#[derive(Clone, Copy)]
struct Stand {
    stop: usize,
    count: usize,
    peak: usize,
    held: usize,
}

// A digit of the rows, 0 past their end.
fn digit(rows: &[u8], at: usize, i: usize) -> usize {
    if at < 65536 && i < 8 && at + i < rows.len() && rows[at + i] >= b'0' {
        return usize::from(rows[at + i] - b'0');
    }
    0
}

// 0 stage 0; 1 the next level at x into the stage at y; 2 the reward at x added to y for action z; 3 the best of x and y.
fn rule_of(kind: usize, x: usize, y: usize, z: usize) -> Rule {
    match kind {
        1 => Rule::Levels(x, 1, y),
        2 => Rule::Reward(x, y, 1, 0, z),
        3 => Rule::Best(x, y),
        _ => Rule::Zero,
    }
}

// The rule of the row at a place of the rows.
fn rule_at(rows: &[u8], at: usize) -> Rule {
    let kind = digit(rows, at, 0);
    let x = digit(rows, at, 1);
    let y = digit(rows, at, 2);
    let z = digit(rows, at, 3);
    rule_of(kind, x, y, z)
}

// The places of a rule are held.
fn fits(rule: Rule, held: usize) -> bool
    ensures { result ≡ true → FitsRule held rule }
{
    match rule {
        Rule::Zero => true,
        Rule::Levels(at, m, f) => {
            if m != 1 {
                return false;
            }
            if at >= held {
                return false;
            }
            f < held
        }
        Rule::Expect(_, _, _, _) => false,
        Rule::Reward(reward, f, _, _, action) => {
            if action > 8 {
                return false;
            }
            if reward >= held {
                return false;
            }
            f < held
        }
        Rule::Best(f, g) => {
            if f >= held {
                return false;
            }
            g < held
        }
    }
}

// An operation's line: nodes afterwards, the peak, the node that is the result.
fn report(rt: &impl Print, r: Run, nodes: &[i64], at: u32) -> io::Result<()> {
    number(rt, r.stop as u64)?;
    pair(rt, r.count as u64, r.peak as u64)?;
    text(rt, b": ")?;
    node(rt, nodes, at)
}

// One operation and its line.
fn step(
    rt: &impl Print,
    nodes: &mut [i64],
    work: &mut [u32],
    cap: usize,
    s: Stand,
    roots: &mut [u32],
    to: usize,
    rule: Rule,
) -> io::Result<Stand>
    requires { Standing cap nodes.old work.old s.count roots.old s.held × (to ≤ s.held) × (to < length roots.old) × FitsRule s.held rule }
    ensures ok { IfOk result (λ stand. stand.stop ≡ 0 → Standing cap nodes.new work.new stand.count roots.new stand.held) }
    ensures err { OnErr result (OperatedOnce cap s.peak nodes.old s.count roots.old s.held nodes.new work.new roots.new) }
{
    let start = Run {
        stop: 0,
        count: s.count,
        peak: s.peak,
    };
    let r = operate(nodes, work, cap, start, roots, s.held, to, rule);
    report(rt, r, nodes, roots[to])?;
    Ok(Stand {
        stop: r.stop,
        count: r.count,
        peak: r.peak,
        held: to + 1,
    })
}

// The operation of the row at a place of the rows; none where its places are not held.
fn row(
    rt: &impl Print,
    nodes: &mut [i64],
    work: &mut [u32],
    cap: usize,
    s: Stand,
    roots: &mut [u32],
    rows: &[u8],
    at: usize,
) -> io::Result<Stand>
    requires { Standing cap nodes.old work.old s.count roots.old s.held }
    ensures ok { IfOk result (λ stand. stand.stop ≡ 0 → Standing cap nodes.new work.new stand.count roots.new stand.held) }
    ensures err { OnErr result (OperatedOnce cap s.peak nodes.old s.count roots.old s.held nodes.new work.new roots.new) }
{
    let rule = rule_at(rows, at);
    let to = digit(rows, at, 4);
    if to >= roots.len() {
        return Ok(s);
    }
    if to > s.held {
        return Ok(s);
    }
    if fits(rule, s.held) {
        return step(rt, nodes, work, cap, s, roots, to, rule);
    }
    Ok(s)
}

// The operations of some rows of five digits and a space: kind, x, y, z and the place of the result.
fn steps(
    rt: &impl Print,
    nodes: &mut [i64],
    work: &mut [u32],
    cap: usize,
    s: Stand,
    roots: &mut [u32],
    rows: &[u8],
) -> io::Result<Stand>
    requires { (s.stop ≡ 0) × Standing cap nodes.old work.old s.count roots.old s.held }
    ensures ok { IfOk result (λ stand. stand.stop ≡ 0 → Standing cap nodes.new work.new stand.count roots.new stand.held) }
    ensures err { OnErr result (LeftMidway cap nodes.new work.new roots.new) }
{
    let mut r = s;
    let mut at: usize = 0;
    // No `for`: over a row's six bytes a `step_by` needs a measure too.
    while at < rows.len() {
        r = row(rt, nodes, work, cap, r, roots, rows, at)?;
        if r.stop != 0 {
            return Ok(r);
        }
        at += 6;
    }
    Ok(r)
}

// An accepted model in a table with room for 32 nodes: its roots are held.
fn loaded(
    rt: &impl Print,
    model: &[u8],
    nodes: &mut [i64],
    work: &mut [u32],
    roots: &mut [u32],
) -> io::Result<Stand>
    requires { ((verdict model.now).number ≡ 0) × (length model.now ≤ bytes_most) × Space 32 nodes.old work.old 0 × (length roots.old ≡ roots_most) }
    ensures ok { IfOk result (λ stand. stand.stop ≡ 0 → Standing 32 nodes.new work.new stand.count roots.new stand.held) }
    ensures err { OnErr result ((done : Done) × Loads model.now 32 nodes.new work.new roots.new done) }
{
    table_clear::zeros::words_from(work, 0);
    let done = load_model::load(model, nodes, work, 32, roots);
    let held = solve_total::model_size(model);
    pair(rt, done.stop as u64, done.count as u64)?;
    ending(rt, b"loaded, roots ", held as u64)?;
    Ok(Stand {
        stop: done.stop,
        count: done.count,
        peak: done.count,
        held,
    })
}

fn list(rt: &impl Print, model: &[u8], nodes: &[i64], stages: &[u32]) -> io::Result<()> {
    let mut room = [0u8; 65536];
    let r = text_listing::listing(model, 2, nodes, stages, &mut room, 0);
    let size = r.size;
    pair(rt, r.number as u64, r.place as u64)?;
    text(rt, b"listed\n")?;
    if size <= room.len() {
        text(rt, &room[..size])?;
    }
    Ok(())
}

// The stages' tables, from their roots: the pond's four, stage 0 and the two stages are held.
fn finished(
    rt: &impl Print,
    model: &[u8],
    nodes: &mut [i64],
    work: &mut [u32],
    s: Stand,
    roots: &[u32],
) -> io::Result<()>
    requires { Standing 32 nodes.old work.old s.count roots.now s.held }
{
    if s.held != 7 {
        return Ok(());
    }
    let mut stages = [0u32; 8];
    let n = finish::finish(nodes, work, 32, s.count, &roots[5..7], &mut stages);
    list(rt, model, nodes, &stages)?;
    number(rt, n as u64)?;
    ending(rt, b"nodes, peak ", s.peak as u64)
}

// The rows on an accepted model.
fn planned(
    rt: &impl Print,
    model: &[u8],
    nodes: &mut [i64],
    work: &mut [u32],
    roots: &mut [u32],
    rows: &[u8],
) -> io::Result<()>
    requires { ((verdict model.now).number ≡ 0) × (length model.now ≤ bytes_most) × Space 32 nodes.old work.old 0 × (length roots.old ≡ roots_most) }
{
    let s = loaded(rt, model, nodes, work, roots)?;
    if s.stop != 0 {
        return Ok(());
    }
    let r = steps(rt, nodes, work, 32, s, roots, rows)?;
    if r.stop != 0 {
        return Ok(());
    }
    finished(rt, model, nodes, work, r, roots)
}

fn run(
    rt: &impl Print,
    model: &[u8],
    nodes: &mut [i64],
    work: &mut [u32],
    roots: &mut [u32],
    rows: &[u8],
) -> io::Result<()>
    requires { Space 32 nodes.old work.old 0 × (length roots.old ≡ roots_most) }
{
    if model.len() > 65535 {
        return Ok(());
    }
    let v = model::validate(model);
    if v.number != 0 {
        return Ok(());
    }
    planned(rt, model, nodes, work, roots, rows)
}

fn pond(rt: &impl Print, room: &[u8], n: usize) -> io::Result<()> {
    let mut nodes = [0i64; NODES_WORDS];
    let mut work = [0u32; NODES_WORK];
    let mut roots = [0u32; ROOTS];
    if room.len() < n {
        return Ok(());
    }
    run(
        rt,
        &room[..n],
        &mut nodes,
        &mut work,
        &mut roots,
        b"00004 11405 20515 13406 22626 35605 11506 20616 13507 22727 36706 ",
    )
}

fn main(rt: HostRuntime) -> io::Result<()> {
    let mut model = [0u8; 400];
    let n = check_hex::bytes_of(
        b"S 01 00 02A 01 P 20 01A 10 01000000 OOOKO 22 01A 01 10 OOOOK 32000000 10 OOOOK ffffffff 12 ffffffff OOOK 0a000000 20 02A 10 01000000 OOOK f6ffffff 10 01000000 OOOKO 12 ffffffff OOOK 0a000000 22 02A 01 ff",
        &mut model,
    );
    pond(&rt, &model, n)
}
