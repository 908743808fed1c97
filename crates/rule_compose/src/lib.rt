// Substitution: levels by their next values' diagrams, conditions by the next step's.
#![tactic(auto)]

ghost use Rattle.std.specs.Prelude.{◌≡◌, true, ◌<◌, ◌≤◌};
ghost use Rattle.table.specs.Table.{node_at, is_leaf};
ghost use Rattle.theory.specs.Widths.{conditions_most};
ghost use Rattle.theory.specs.Rules as R;
ghost use Rattle.rule_node.specs.Nodes.{linear_held, tree_at};
ghost use Rattle.rule_node.specs.Table.{Table, RuleRan};
ghost use Rattle.rule_node.specs.EntryMeaning.{rule_of};
ghost use Rattle.rule_combine.specs.Levels.{Levels, levels_at};
ghost use Rattle.rule_compose.specs.Substitution.{head_of, over_test};

use rule_choose::choose;
use rule_combine::linear_diagram;
use rule_compose_entry::{condition_at, recall, retain};
use rule_node::codes::CHOOSE_LATER;
use rule_tests::below_at;
use rule_walk::walk;
use table::{Made, Stopped};

// What comes before the branches: the linear diagram of a test; f itself, unused, for a condition k.
fn head(
    nodes: &mut [i64],
    work: &mut [u32],
    cap: usize,
    count: usize,
    f: usize,
    k: usize,
    levels: &[u32],
) -> Result<Made, Stopped>
    requires { Table rule_of cap nodes.old work.old count × (f < count) × Levels count levels.now }
    ensures { RuleRan rule_of cap nodes.old work.old count (head_of k (levels_at nodes.old count levels.now) (linear_held (node_at nodes.old f)) (tree_at nodes.old count f)) nodes.new work.new result }
{
    if k == 0 {
        return linear_diagram(nodes, work, cap, count, f, levels);
    }
    Ok(Made { at: f, count })
}

// What is made of the branches h and l: a test walks its diagram p, a condition k is the next step's.
fn over_test(
    nodes: &mut [i64],
    work: &mut [u32],
    cap: usize,
    count: usize,
    k: usize,
    p: usize,
    h: usize,
    l: usize,
) -> Result<Made, Stopped>
    requires { Table rule_of cap nodes.old work.old count × (k ≤ conditions_most) × (p < count) × (h < count) × (l < count) }
    ensures { RuleRan rule_of cap nodes.old work.old count (over_test k (tree_at nodes.old count p) (tree_at nodes.old count h) (tree_at nodes.old count l)) nodes.new work.new result }
{
    if k == 0 {
        return walk(nodes, work, cap, count, p, h, l);
    }
    choose(nodes, work, cap, count, CHOOSE_LATER, k, h, l)
}

// At the leaf f: the linear diagram of its linear; the leaf "none" stays as it is.
fn at_leaf(
    nodes: &mut [i64],
    work: &mut [u32],
    cap: usize,
    count: usize,
    f: usize,
    levels: &[u32],
) -> Result<Made, Stopped>
    requires { Table rule_of cap nodes.old work.old count × (f < count) × Levels count levels.now × (is_leaf (node_at nodes.old f).kind ≡ true) }
    ensures { RuleRan rule_of cap nodes.old work.old count (R.substitute (levels_at nodes.old count levels.now) (tree_at nodes.old count f)) nodes.new work.new result }
{
    if table::none_at(nodes, f) {
        return Ok(Made { at: f, count });
    }
    linear_diagram(nodes, work, cap, count, f, levels)
}

// Rule 12: the diagram at f with those of the levels in the place of levels. Only indexes live over the calls.
pub fn substitute(
    nodes: &mut [i64],
    work: &mut [u32],
    cap: usize,
    count: usize,
    f: usize,
    levels: &[u32],
) -> Result<Made, Stopped>
    requires { Table rule_of cap nodes.old work.old count × (f < count) × Levels count levels.now }
    ensures { RuleRan rule_of cap nodes.old work.old count (R.substitute (levels_at nodes.old count levels.now) (tree_at nodes.old count f)) nodes.new work.new result }
{
    let s = below_at(nodes, f);
    if s.ends {
        return at_leaf(nodes, work, cap, count, f, levels);
    }
    if let Some(at) = recall(work, cap, f, levels) {
        return Ok(Made { at, count });
    }
    let k = condition_at(nodes, f);
    let p = head(nodes, work, cap, count, f, k, levels)?;
    let h = substitute(nodes, work, cap, p.count, s.high, levels)?;
    let l = substitute(nodes, work, cap, h.count, s.low, levels)?;
    let r = over_test(nodes, work, cap, l.count, k, p.at, h.at, l.at)?;
    retain(work, cap, f, levels, r.at);
    Ok(r)
}
