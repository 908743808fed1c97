// The walk of a linear's diagram: at each leaf one of two diagrams, or a choice between them.
#![tactic(auto)]

ghost use Rattle.std.specs.Prelude.{◌≡◌, ◌<◌};
ghost use Rattle.table.specs.Table.{node_at};
ghost use Rattle.theory.specs.Rules.{decide};
ghost use Rattle.rule_node.specs.Nodes.{linear_held, tree_at, At};
ghost use Rattle.rule_node.specs.Table.{Table, RuleRan};
ghost use Rattle.rule_node.specs.EntryMeaning.{rule_of};
ghost use Rattle.rule_node.specs.Roots.{down_of};
ghost use Rattle.rule_leaves.specs.Leaves.{AtLeaf};

use rule_choose::choose;
use rule_leaves::numbers::{constant, decided, is_constant};
use rule_node::Down;
use rule_node::codes::{CHOOSE_NAMED, WALK};
use rule_tests::below_at;
use table::{Made, Stopped};
use table_cache::{keep, look};

// What lies below the node at f. A second name of `below_at` that docs/PORT.md keeps.
pub fn down_at(nodes: &[i64], f: usize) -> Down
    requires { At nodes.now f }
    ensures { result ≡ down_of (node_at nodes.now f) }
{
    below_at(nodes, f)
}

// At the leaf f: a constant decides, g where it is at most 0 and else p; another linear is a choice by the test that the leaf names.
fn decide_at(
    nodes: &mut [i64],
    work: &mut [u32],
    cap: usize,
    count: usize,
    f: usize,
    g: usize,
    p: usize,
) -> Result<Made, Stopped>
    requires { Table rule_of cap nodes.old work.old count × AtLeaf nodes.old count f × (g < count) × (p < count) }
    ensures { RuleRan rule_of cap nodes.old work.old count (decide (linear_held (node_at nodes.old f)) (tree_at nodes.old count g) (tree_at nodes.old count p)) nodes.new work.new result }
{
    let x = table::get(nodes, f);
    if is_constant(x) {
        return Ok(Made {
            at: decided(constant(x), g, p),
            count,
        });
    }
    choose(nodes, work, cap, count, CHOOSE_NAMED, f, g, p)
}

// Rule 9: the diagram at f walked, with g on the high side of its leaves and p on the low one. Only indexes live over the calls.
pub fn walk(
    nodes: &mut [i64],
    work: &mut [u32],
    cap: usize,
    count: usize,
    f: usize,
    g: usize,
    p: usize,
) -> Result<Made, Stopped>
    requires { Table rule_of cap nodes.old work.old count × (f < count) × (g < count) × (p < count) }
    ensures { RuleRan rule_of cap nodes.old work.old count (rule_of nodes.old count 9 f g p 0) nodes.new work.new result }
{
    let s = below_at(nodes, f);
    if s.ends {
        return decide_at(nodes, work, cap, count, f, g, p);
    }
    if let Some(at) = look(work, cap, WALK, f, g, p, 0) {
        return Ok(Made { at, count });
    }
    let h = walk(nodes, work, cap, count, s.high, g, p)?;
    let l = walk(nodes, work, cap, h.count, s.low, g, p)?;
    let r = choose(nodes, work, cap, l.count, CHOOSE_NAMED, f, h.at, l.at)?;
    keep(work, cap, WALK, f, g, p, 0, r.at);
    Ok(r)
}
