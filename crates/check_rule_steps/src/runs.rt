// All rows, from an empty table on.
ghost use Rattle.std.specs.Prelude.{◌≡◌, true, ℕ, ◌≤◌, ◌<◌, length, get_or, IfOk, OnErr};
ghost use Rattle.rule_node.specs.Table.{Table};
ghost use Rattle.rule_node.specs.EntryMeaning.{rule_of};
ghost use Rattle.check_rule_steps.specs.Steps.{nodes_after};

use super::lines;
use super::rules::step;
use std::io;
use table::{Made, Stopped};

// How many nodes there are after a step on a table of so many.
fn after(count: usize, r: Option<Result<Made, Stopped>>) -> usize
    ensures { result ≡ nodes_after count r }
{
    match r {
        Some(Ok(made)) => made.count,
        Some(Err(s)) => s.count,
        None => count,
    }
}

// The step of a row, its line printed and its node kept. Where the line is not printed, the step is done and its node is not kept.
fn line(
    rt: &impl Print,
    nodes: &mut [i64],
    work: &mut [u32],
    cap: usize,
    count: usize,
    rows: &[i64],
    results: &mut [usize],
    i: usize,
) -> io::Result<usize>
    requires { Table rule_of cap nodes.old work.old count × (i ≤ 1000) }
    ensures ok { IfOk result (λ made. Table rule_of cap nodes.new work.new made) }
    ensures err { OnErr result ((made : ℕ) × Table rule_of cap nodes.new work.new made × (results.new ≡ results.old)) }
{
    let s = lines::step_at(rows, results, i * 4);
    let r = step(nodes, work, cap, count, s);
    let made = after(count, r);
    lines::print(rt, nodes, made, r)?;
    lines::save(results, i, r);
    Ok(made)
}

// The rows in turn, at most 1,000.
fn each(
    rt: &impl Print,
    nodes: &mut [i64],
    work: &mut [u32],
    cap: usize,
    rows: &[i64],
    results: &mut [usize],
) -> io::Result<()>
    requires { Table rule_of cap nodes.old work.old 0 }
{
    let mut count = 0;
    for i in 0..(rows.len() / 4).min(1000) {
        count = line(rt, nodes, work, cap, count, rows, results, i)?;
    }
    Ok(())
}

// Whether all words are 0.
fn all_zero(work: &[u32]) -> bool
    ensures { result ≡ true → (k : ℕ) → k < length work.now → get_or work.now k 0 ≡ 0 }
{
    for i in 0..work.len() {
        if work[i] != 0 {
            return false;
        }
    }
    true
}

// A table of at most 65,535 nodes that are there, with work words that are all 0.
pub fn ready(nodes: &[i64], work: &[u32], cap: usize) -> bool
    ensures { result ≡ true → Table rule_of cap nodes.now work.now 0 }
{
    if cap == 0 {
        return false;
    }
    if cap > 65535 {
        return false;
    }
    if nodes.len() < cap * table::NODE_WORDS {
        return false;
    }
    if work.len() < cap * table_unique::WORK_WORDS {
        return false;
    }
    all_zero(work)
}

// All of it; nothing where the tables are not ready.
pub fn run(
    rt: &impl Print,
    nodes: &mut [i64],
    work: &mut [u32],
    results: &mut [usize],
    cap: usize,
    rows: &[i64],
) -> io::Result<()> {
    if ready(nodes, work, cap) {
        each(rt, nodes, work, cap, rows, results)?;
    }
    Ok(())
}
