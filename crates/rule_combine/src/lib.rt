// A linear combination of diagrams: a linear with diagrams in the place of levels.
#![tactic(auto)]

ghost use Rattle.std.specs.Prelude.{◌≡◌, ◌<◌, pos, get_or};
ghost use Rattle.whole.specs.Linears.{numbers};
ghost use Rattle.table.specs.Table.{node_at};
ghost use Rattle.rule_node.specs.Nodes.{linear_held, tree_at, At};
ghost use Rattle.rule_node.specs.Table.{Table, RuleRan};
ghost use Rattle.rule_node.specs.EntryMeaning.{rule_of};
ghost use Rattle.rule_combine.specs.Levels.{Levels, levels_at, levels_added, add_on};
ghost use Rattle.theory.specs.Rules as T;

use rule_apply::{Merge, merge};
use rule_unary::rules::{scale, shift};
use table::{Made, Stopped};
use whole::COEFFICIENTS;

// Number k of node i.
fn number(nodes: &[i64], i: usize, k: usize) -> i64
    requires { At nodes.now i × (k < numbers) }
    ensures { result ≡ get_or (node_at nodes.now i).n k (pos 0) }
{
    table::get(nodes, i).n[k]
}

// The running sum at f with c times the diagram at d.
fn add_level(
    nodes: &mut [i64],
    work: &mut [u32],
    cap: usize,
    count: usize,
    f: usize,
    c: i64,
    d: usize,
) -> Result<Made, Stopped>
    requires { Table rule_of cap nodes.old work.old count × (f < count) × (d < count) }
    ensures { RuleRan rule_of cap nodes.old work.old count (add_on c (tree_at nodes.old count d) (tree_at nodes.old count f)) nodes.new work.new result }
{
    let t = scale(nodes, work, cap, count, d, c)?;
    merge(nodes, work, cap, t.count, Merge::Sum, f, t.at)
}

// The running sum at f with the levels behind the first, each by its coefficient in the linear of node i, in order.
fn add_levels(
    nodes: &mut [i64],
    work: &mut [u32],
    cap: usize,
    count: usize,
    i: usize,
    f: usize,
    levels: &[u32],
) -> Result<Made, Stopped>
    requires { Table rule_of cap nodes.old work.old count × (i < count) × (f < count) × Levels count levels.now }
    ensures { RuleRan rule_of cap nodes.old work.old count (levels_added nodes.old count i f levels.now) nodes.new work.new result }
{
    let mut s = Made { at: f, count };
    for k in 1..levels.len() {
        let c = number(nodes, i, k);
        let d = levels[k] as usize;
        s = add_level(nodes, work, cap, s.count, s.at, c, d)?;
    }
    Ok(s)
}

// The sum of the levels' diagrams, each by its coefficient in the linear of node i, in order.
fn level_sum(
    nodes: &mut [i64],
    work: &mut [u32],
    cap: usize,
    count: usize,
    i: usize,
    levels: &[u32],
) -> Result<Made, Stopped>
    requires { Table rule_of cap nodes.old work.old count × (i < count) × Levels count levels.now }
    ensures { RuleRan rule_of cap nodes.old work.old count (T.levels_sum (linear_held (node_at nodes.old i)).coeffs (levels_at nodes.old count levels.now)) nodes.new work.new result }
{
    let c = number(nodes, i, 0);
    let d = levels[0] as usize;
    let s = scale(nodes, work, cap, count, d, c)?;
    add_levels(nodes, work, cap, s.count, i, s.at, levels)
}

// The linear of node i over the levels' diagrams, its constant last.
pub fn linear_diagram(
    nodes: &mut [i64],
    work: &mut [u32],
    cap: usize,
    count: usize,
    i: usize,
    levels: &[u32],
) -> Result<Made, Stopped>
    requires { Table rule_of cap nodes.old work.old count × (i < count) × Levels count levels.now }
    ensures { RuleRan rule_of cap nodes.old work.old count (T.linear_diagram (levels_at nodes.old count levels.now) (linear_held (node_at nodes.old i))) nodes.new work.new result }
{
    let s = level_sum(nodes, work, cap, count, i, levels)?;
    let c = number(nodes, i, COEFFICIENTS);
    shift(nodes, work, cap, s.count, s.at, c)
}
