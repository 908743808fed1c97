// One operation on a table with its roots: the table is made to hold exactly the nodes that the first roots need, then a rule runs,
// in a part of the room that follows what is held.
#![tactic(auto)]

ghost use Rattle.std.specs.Prelude.{◌≡◌, ◌+◌, ◌≤◌, ◌<◌, max, length, take, eqb};
ghost use Rattle.rule_node.specs.Nodes.{trees, Good};
ghost use Rattle.rule_node.specs.Table.{Table, RuleRan};
ghost use Rattle.rule_node.specs.EntryMeaning.{rule_of};
ghost use Rattle.table_unique.specs.Unique.{Space};
ghost use Rattle.collect_mark.specs.Mark.{roots_of, Below};
ghost use Rattle.solve_laws.specs.Operated.{Came};
ghost use Rattle.solve_operation.specs.Operation.{substitutes, comp_of, zero_node, FitsLevels, FitsRule, Standing, Kept, Operated};
ghost use Rattle.table.specs.Table.{nodes_most, stop_of};

use rule_apply::Merge;
use table::{Made, Node, Stop, Stopped};
use whole::NUMBERS;

// What an operation computes, of roots by their places: w, f and g are places, as `at` is the first of m next levels.
#[derive(Clone, Copy)]
pub enum Rule {
    Zero,
    Levels(usize, usize, usize),
    Expect(usize, usize, usize, u32),
    Reward(usize, usize, u32, u32, usize),
    Best(usize, usize),
}

// What stopped a run, or 0; how many nodes the table has; the largest count at an operation's end.
#[derive(Clone, Copy)]
pub struct Run {
    pub stop: usize,
    pub count: usize,
    pub peak: usize,
}

// The table left with the nodes that the first roots need; they move with it. As many work words serve as there are nodes.
fn keep_roots(
    nodes: &mut [i64],
    work: &mut [u32],
    count: usize,
    roots: &mut [u32],
    held: usize,
) -> usize
    requires { Space (max 1 count) nodes.old work.old count × Good nodes.old count × Below (take held roots.old) count × (held ≤ length roots.old) }
    ensures { Kept nodes.old nodes.new work.old work.new roots.old roots.new held count result }
{
    collect::collect(nodes, work, count.max(1), count, &mut roots[..held])
}

// The m diagrams from a place on in the place of the levels of the one at f.
fn replace_levels(
    nodes: &mut [i64],
    work: &mut [u32],
    cap: usize,
    count: usize,
    roots: &[u32],
    at: usize,
    m: usize,
    f: usize,
) -> Result<Made, Stopped>
    requires { Table rule_of cap nodes.old work.old count × Below roots.now count × FitsLevels (length roots.now) at m f }
    ensures { RuleRan rule_of cap nodes.old work.old count (substitutes (roots_of (trees nodes.old count) roots.now) at m f) nodes.new work.new result }
{
    let end = at + m;
    rule_compose::substitute(nodes, work, cap, count, roots[f] as usize, &roots[at..end])
}

fn zero() -> Node
    ensures { result ≡ zero_node }
{
    Node {
        kind: 0,
        n: [0; NUMBERS],
        high: 0,
        low: 0,
    }
}

// The rule's computation on a table whose roots are these.
fn compute(
    nodes: &mut [i64],
    work: &mut [u32],
    cap: usize,
    count: usize,
    roots: &[u32],
    rule: Rule,
) -> Result<Made, Stopped>
    requires { Table rule_of cap nodes.old work.old count × Below roots.now count × FitsRule (length roots.now) rule }
    ensures { RuleRan rule_of cap nodes.old work.old count (comp_of (roots_of (trees nodes.old count) roots.now) rule) nodes.new work.new result }
{
    match rule {
        Rule::Zero => rule_node::making::make_leaf(nodes, work, cap, count, zero()),
        Rule::Levels(at, m, f) => replace_levels(nodes, work, cap, count, roots, at, m, f),
        Rule::Expect(w, k, f, weights) => {
            rule_expect::expectation(
                nodes,
                work,
                cap,
                count,
                roots[w] as usize,
                k,
                roots[f] as usize,
                weights as usize,
            )
        }
        Rule::Reward(reward, f, weights, exponent, action) => {
            rule_expect::add_reward(
                nodes,
                work,
                cap,
                count,
                roots[reward] as usize,
                roots[f] as usize,
                weights,
                exponent,
                action,
            )
        }
        Rule::Best(f, g) => {
            rule_apply::merge(
                nodes,
                work,
                cap,
                count,
                Merge::Best,
                roots[f] as usize,
                roots[g] as usize,
            )
        }
    }
}

// With room for a part: the chains of the nodes that are there, an empty cache, and the rule.
fn attempt(
    nodes: &mut [i64],
    work: &mut [u32],
    part: usize,
    count: usize,
    roots: &[u32],
    rule: Rule,
) -> Result<Made, Stopped>
    requires { Space part nodes.old work.old count × Good nodes.old count × Below roots.now count × FitsRule (length roots.now) rule }
    ensures { Came part nodes.old count (comp_of (roots_of (trees nodes.old count) roots.now) rule) nodes.new work.new result }
{
    collect_rehash::rehash(nodes, work, part, count);
    compute(nodes, work, part, count, roots, rule)
}

// Rooms up to here are cleared in a moment: sixteen times what is held; the least part.
const SMALL_PART: usize = 4096;

pub const LEAST_PART: usize = 512;

// The part of the room that a rule begins with: sixteen times what is held, or eight times where that is more than 4,096 nodes, since
// every operation clears it.
fn first_part(cap: usize, count: usize) -> usize
    requires { (0 < cap) × (cap ≤ nodes_most) × (count ≤ cap) }
    ensures { (0 < result) × (count ≤ result) × (result ≤ cap) }
{
    let wide = (count * 16).min(SMALL_PART.max(count * 8));
    cap.min(LEAST_PART.max(wide))
}

// The part after one that was too small.
pub fn wider_part(cap: usize, part: usize) -> usize
    requires { (0 < part) × (cap ≤ nodes_most) × (part < cap) }
    ensures { (part < result) × (result ≤ cap) }
{
    cap.min(part * 16)
}

// Whether a run ended for want of room.
fn is_full(made: Result<Made, Stopped>) -> bool
    ensures { result ≡ eqb (stop_of made) 12 }
{
    match made {
        Err(e) => e.why == Stop::Full,
        Ok(_) => false,
    }
}

// The rule in parts of the room, each wider, since a run clears as many work words as it may fill. What does not end with 12 in a part
// ends alike with more room; else the whole room decides.
fn run_rule(
    nodes: &mut [i64],
    work: &mut [u32],
    cap: usize,
    count: usize,
    roots: &[u32],
    rule: Rule,
) -> Result<Made, Stopped>
    requires { Space cap nodes.old work.old count × Good nodes.old count × Below roots.now count × FitsRule (length roots.now) rule }
    ensures { Came cap nodes.old count (comp_of (roots_of (trees nodes.old count) roots.now) rule) nodes.new work.new result }
{
    // A while: the next part is a rule of its own (wider_part), no range.
    let mut part = first_part(cap, count);
    while part < cap {
        let made = attempt(nodes, work, part, count, roots, rule);
        if !is_full(made) {
            return made;
        }
        part = wider_part(cap, part);
    }
    attempt(nodes, work, cap, count, roots, rule)
}

// One operation: its result becomes the root at `to`, the last one then.
pub fn operate(
    nodes: &mut [i64],
    work: &mut [u32],
    cap: usize,
    run: Run,
    roots: &mut [u32],
    held: usize,
    to: usize,
    rule: Rule,
) -> Run
    requires { Standing cap nodes.old work.old run.count roots.old held × (to ≤ held) × (to < length roots.old) × FitsRule held rule }
    ensures { Operated cap run.peak nodes.old run.count roots.old held to rule nodes.new work.new roots.new result }
{
    let left = keep_roots(nodes, work, run.count, roots, held);
    match run_rule(nodes, work, cap, left, &roots[..held], rule) {
        Ok(made) => {
            roots[to] = made.at as u32;
            Run {
                stop: 0,
                count: made.count,
                peak: run.peak.max(made.count),
            }
        }
        Err(e) => Run {
            stop: e.why.number(),
            count: e.count,
            peak: run.peak.max(e.count),
        },
    }
}
