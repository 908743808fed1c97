// Two diagrams merged by the first root: sum, product, best.
#![tactic(auto)]

ghost use Rattle.std.specs.Prelude.{◌<◌, ◌≤◌};
ghost use Rattle.table.specs.Table.{node_at};
ghost use Rattle.rule_node.specs.Nodes.{test_held, tree_at, Root};
ghost use Rattle.rule_node.specs.Table.{Table, RuleRan};
ghost use Rattle.rule_node.specs.EntryMeaning.{rule_of};
ghost use Rattle.rule_apply_leaves.specs.Combined.{code_of};
ghost use Rattle.rule_apply.specs.Merged.{maker_of};

pub use rule_apply_leaves::Merge;
use rule_apply_leaves::combine;
use rule_choose::choose;
use rule_choose::roots::sides_at;
use rule_node::codes::CHOOSE_NAMED;
use rule_node::making::join;
use table::{Made, Stopped};
use table_cache::{keep, look};

// What a rule makes of two results over the root at t: best chooses, the others have a node.
fn over_root(
    nodes: &mut [i64],
    work: &mut [u32],
    cap: usize,
    count: usize,
    rule: Merge,
    t: usize,
    h: usize,
    l: usize,
) -> Result<Made, Stopped>
    requires { Table rule_of cap nodes.old work.old count × Root nodes.old count t × (h < count) × (l < count) }
    ensures { RuleRan rule_of cap nodes.old work.old count (maker_of rule (test_held (node_at nodes.old t)) (tree_at nodes.old count h) (tree_at nodes.old count l)) nodes.new work.new result }
{
    match rule {
        Merge::Best => choose(nodes, work, cap, count, CHOOSE_NAMED, t, h, l),
        Merge::Sum | Merge::Product => join(nodes, work, cap, count, t, h, l),
    }
}

// The diagrams at f and g merged by sum, product or best. Only indexes live over the calls.
// The steps are those of `choose`, `over` and `walk`: a shared one would take three closures over the same words.
pub fn merge(
    nodes: &mut [i64],
    work: &mut [u32],
    cap: usize,
    count: usize,
    rule: Merge,
    f: usize,
    g: usize,
) -> Result<Made, Stopped>
    requires { Table rule_of cap nodes.old work.old count × (f < count) × (g < count) }
    ensures { RuleRan rule_of cap nodes.old work.old count (rule_of nodes.old count (code_of rule) f g 0 0) nodes.new work.new result }
{
    let s = sides_at(nodes, f, g);
    if s.ends {
        return combine(nodes, work, cap, count, rule, f, g);
    }
    let op = rule.code();
    if let Some(at) = look(work, cap, op, f, g, 0, 0) {
        return Ok(Made { at, count });
    }
    let h = merge(nodes, work, cap, count, rule, s.fh, s.gh)?;
    let l = merge(nodes, work, cap, h.count, rule, s.fl, s.gl)?;
    let r = over_root(nodes, work, cap, l.count, rule, s.root, h.at, l.at)?;
    keep(work, cap, op, f, g, 0, 0, r.at);
    Ok(r)
}
