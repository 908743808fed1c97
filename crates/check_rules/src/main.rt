// Staircases merged in a table of 49,152 nodes: what each step came to, as its refusal's number and the count of nodes.
#![tactic(auto)]

ghost use Rattle.std.specs.Prelude.{◌≤◌, ◌<◌, IfOk, OnErr};
ghost use Rattle.table.specs.Table.{Answer};
ghost use Rattle.rule_node.specs.Table.{Table};
ghost use Rattle.rule_node.specs.EntryMeaning.{rule_of};
ghost use Rattle.check_rules.specs.Held.{cap, RulesHeld};

use rule_apply::{Merge, merge};
use rule_node::making::{join_test, make_leaf};
use std::io;
use table::{LEAF, Made, NODE_WORDS, Node, Stopped};
use table_unique::WORK_WORDS;
use whole::{COEFFICIENTS, NUMBERS};

// The tables and the recursion share 8 MB of stack.
const CAP: usize = 49152;

const TESTS: usize = 750;

// A leaf without coefficients.
fn leaf(nodes: &mut [i64], work: &mut [u32], count: usize, value: usize) -> Result<Made, Stopped>
    requires { Table rule_of cap nodes.old work.old count × (value ≤ 1000000) }
    ensures { RulesHeld count nodes.new work.new result }
{
    let mut n = [0i64; NUMBERS];
    n[COEFFICIENTS] = value as i64;
    let s = Node {
        kind: LEAF,
        n,
        high: 0,
        low: 0,
    };
    make_leaf(nodes, work, CAP, count, s)
}

// A test of the first level over the tests below and a leaf: these lie on its high side, where they may be true.
fn stair(
    nodes: &mut [i64],
    work: &mut [u32],
    count: usize,
    at: usize,
    value: usize,
    below: usize,
) -> Result<Made, Stopped>
    requires { Table rule_of cap nodes.old work.old count × (at ≤ 1000000) × (value ≤ 1000000) × (below < count) }
    ensures { RulesHeld count nodes.new work.new result }
{
    let l = leaf(nodes, work, count, value)?;
    let mut n = [0i64; NUMBERS];
    n[0] = 1;
    n[COEFFICIENTS] = at as i64;
    let t = Node {
        kind: 2,
        n,
        high: 0,
        low: 0,
    };
    join_test(nodes, work, CAP, l.count, t, below, l.at)
}

// A staircase, its last step first: the tests stand two apart from `from` on, the leaves take `values` values.
fn stairs(
    nodes: &mut [i64],
    work: &mut [u32],
    count: usize,
    from: usize,
    value: usize,
    values: usize,
) -> Result<Made, Stopped>
    requires { Table rule_of cap nodes.old work.old count × (from ≤ 1000) × (value ≤ 1000) × (0 < values) }
    ensures { RulesHeld count nodes.new work.new result }
{
    let mut f = leaf(nodes, work, count, value + TESTS)?;
    for i in 0..TESTS {
        let at = from + (TESTS - i) * 2;
        f = stair(nodes, work, f.count, at, value + i % values, f.at)?;
    }
    Ok(f)
}

// A line for a step.
fn show(rt: &impl Print, r: Result<Made, Stopped>) -> io::Result<()> {
    let (stop, count) = match r {
        Ok(made) => (0, made.count),
        Err(s) => (s.why.number(), s.count),
    };
    println!(rt; "{stop} {count}")
}

// Two staircases, and a rule on them. Where a line is not printed, the table is right as the steps before it left it.
fn pair(
    rt: &impl Print,
    nodes: &mut [i64],
    work: &mut [u32],
    count: usize,
    rule: Merge,
    value: usize,
    values: usize,
) -> io::Result<Result<Made, Stopped>>
    requires { Table rule_of cap nodes.old work.old count × (value ≤ 1000) × (0 < values) }
    ensures ok { IfOk result (λ made. RulesHeld count nodes.new work.new made) }
    ensures err { OnErr result ((made : Answer) × RulesHeld count nodes.new work.new made) }
{
    let first = stairs(nodes, work, count, 0, value, values);
    show(rt, first)?;
    let Ok(f) = first else {
        return Ok(first);
    };
    let second = stairs(nodes, work, f.count, 1, 0, values);
    show(rt, second)?;
    let Ok(g) = second else {
        return Ok(second);
    };
    let r = merge(nodes, work, CAP, g.count, rule, f.at, g.at);
    show(rt, r)?;
    Ok(r)
}

// Best of leaves that all differ; a sum that has room, and one that has not.
fn all(rt: &impl Print, nodes: &mut [i64], work: &mut [u32]) -> io::Result<()>
    requires { Table rule_of cap nodes.old work.old 0 }
{
    let Ok(a) = pair(rt, nodes, work, 0, Merge::Best, 1000, 1000)? else {
        return Ok(());
    };
    let Ok(b) = pair(rt, nodes, work, a.count, Merge::Sum, 0, 20)? else {
        return Ok(());
    };
    let _ = pair(rt, nodes, work, b.count, Merge::Sum, 1000, 1000)?;
    Ok(())
}

// All of it, in tables that are large enough and empty.
fn run(rt: &impl Print, nodes: &mut [i64], work: &mut [u32]) -> io::Result<()> {
    if check_rule_steps::runs::ready(nodes, work, CAP) {
        all(rt, nodes, work)?;
    }
    Ok(())
}

fn main(rt: HostRuntime) -> io::Result<()> {
    let mut nodes = [0i64; CAP * NODE_WORDS];
    let mut work = [0u32; CAP * WORK_WORDS];
    run(&rt, &mut nodes, &mut work)
}
