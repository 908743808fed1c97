// One step on a table: any numbers may be asked for, so whatever a rule requires is looked at first.
ghost use Rattle.std.specs.Prelude.{◌≤◌, ◌<◌, IfSome};
ghost use Rattle.table.specs.Table.{count_of};
ghost use Rattle.rule_node.specs.Table.{Table};
ghost use Rattle.rule_node.specs.EntryMeaning.{rule_of, NamesTest};
ghost use Rattle.rule_unary_node.specs.Acts.{Acts};
ghost use Rattle.check_rule_steps.specs.Steps.{nodes_after};

use super::{Numbers, Step};
use rule_apply::{Merge, merge};
use rule_choose::choose;
use rule_node::making::{join_test, make_leaf};
use rule_unary::rules::over;
use rule_unary_node::halves::{high_half, low_half};
use table::{LEAF, Made, Node, Stopped};
use whole::limits::{LIMIT, mag};
use whole::{COEFFICIENTS, NUMBERS};

// The leaf b L1 + c.
fn leaf(
    nodes: &mut [i64],
    work: &mut [u32],
    cap: usize,
    count: usize,
    b: i64,
    c: i64,
) -> Result<Made, Stopped>
    requires { Table rule_of cap nodes.old work.old count }
    ensures { Table rule_of cap nodes.new work.new (count_of result) }
{
    let mut n = [0; NUMBERS];
    n[0] = b;
    n[COEFFICIENTS] = c;
    let s = Node {
        kind: LEAF,
        n,
        high: 0,
        low: 0,
    };
    make_leaf(nodes, work, cap, count, s)
}

// The numbers that a rule of one diagram takes: scale (3) and shift (4) a number in two halves; complement (5),
// number (6), yes side (7) and no side (8) a count.
fn numbers(op: usize, c: i64) -> Option<Numbers>
    requires { (3 ≤ op) × (op ≤ 8) }
    ensures { IfSome result (λ n. Acts op n.p n.q) }
{
    let k = mag(c);
    if op < 4 {
        return Some(Numbers {
            p: low_half(c),
            q: high_half(c),
        });
    }
    if op < 5 {
        if k > LIMIT {
            return None;
        }
        return Some(Numbers {
            p: low_half(c),
            q: high_half(c),
        });
    }
    if k == 0 || k > 4 {
        return None;
    }
    Some(Numbers {
        p: k as usize,
        q: 0,
    })
}

// A rule of one diagram.
fn unary_step(
    nodes: &mut [i64],
    work: &mut [u32],
    cap: usize,
    count: usize,
    s: Step,
) -> Option<Result<Made, Stopped>>
    requires { Table rule_of cap nodes.old work.old count × (s.f < count) × (3 ≤ s.op) × (s.op ≤ 8) }
    ensures { Table rule_of cap nodes.new work.new (nodes_after count result) }
{
    let n = numbers(s.op, s.c)?;
    Some(over(nodes, work, cap, count, s.op, s.f, n.p, n.q))
}

// What a choice is by: the test that a node names (11), or a condition (10).
fn test_of(count: usize, s: Step) -> Option<Numbers>
    ensures { IfSome result (λ n. NamesTest count n.q n.p) }
{
    if s.op == 11 {
        if s.p >= count {
            return None;
        }
        return Some(Numbers { p: s.p, q: 11 });
    }
    let k = mag(s.c);
    if k == 0 || k > 4 {
        return None;
    }
    Some(Numbers {
        p: k as usize,
        q: 10,
    })
}

// A choice by a condition or by a test.
fn choice(
    nodes: &mut [i64],
    work: &mut [u32],
    cap: usize,
    count: usize,
    s: Step,
) -> Option<Result<Made, Stopped>>
    requires { Table rule_of cap nodes.old work.old count × (s.f < count) × (s.g < count) }
    ensures { Table rule_of cap nodes.new work.new (nodes_after count result) }
{
    let n = test_of(count, s)?;
    Some(choose(nodes, work, cap, count, n.q, n.p, s.f, s.g))
}

// A node of condition c, 1 to 8, over two branches.
fn condition(
    nodes: &mut [i64],
    work: &mut [u32],
    cap: usize,
    count: usize,
    s: Step,
) -> Option<Result<Made, Stopped>>
    requires { Table rule_of cap nodes.old work.old count × (s.f < count) × (s.g < count) }
    ensures { Table rule_of cap nodes.new work.new (nodes_after count result) }
{
    let k = mag(s.c);
    if k == 0 || k > 8 {
        return None;
    }
    let t = rule_tests::condition(k as usize);
    Some(join_test(nodes, work, cap, count, t, s.f, s.g))
}

// The rule that a step's number names, of those that merge two diagrams.
fn merging(op: usize) -> Option<Merge> {
    match op {
        0 => Some(Merge::Sum),
        1 => Some(Merge::Product),
        2 => Some(Merge::Best),
        _ => None,
    }
}

// A rule of two diagrams: sum (0), product (1), best (2), a node of a condition (12), or a choice.
fn binary_step(
    nodes: &mut [i64],
    work: &mut [u32],
    cap: usize,
    count: usize,
    s: Step,
) -> Option<Result<Made, Stopped>>
    requires { Table rule_of cap nodes.old work.old count × (s.f < count) }
    ensures { Table rule_of cap nodes.new work.new (nodes_after count result) }
{
    if s.g >= count {
        return None;
    }
    if let Some(rule) = merging(s.op) {
        return Some(merge(nodes, work, cap, count, rule, s.f, s.g));
    }
    if s.op == 12 {
        return condition(nodes, work, cap, count, s);
    }
    choice(nodes, work, cap, count, s)
}

// Any step; 9 is a leaf. None where it asks for what is not there.
pub fn step(
    nodes: &mut [i64],
    work: &mut [u32],
    cap: usize,
    count: usize,
    s: Step,
) -> Option<Result<Made, Stopped>>
    requires { Table rule_of cap nodes.old work.old count }
    ensures { Table rule_of cap nodes.new work.new (nodes_after count result) }
{
    if s.op == 9 {
        return Some(leaf(nodes, work, cap, count, s.b, s.c));
    }
    if s.f >= count {
        return None;
    }
    if s.op > 2 && s.op < 9 {
        return unary_step(nodes, work, cap, count, s);
    }
    binary_step(nodes, work, cap, count, s)
}
