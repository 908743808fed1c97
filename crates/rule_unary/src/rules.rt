// The rules of one diagram and a bare number.
ghost use Rattle.std.specs.Prelude.{◌≤◌, ◌<◌};
ghost use Rattle.whole.specs.Within.{Small};
ghost use Rattle.theory.specs.Widths.{weights_most, actions_most};
ghost use Rattle.theory.specs.Rules as T;
ghost use Rattle.rule_node.specs.Nodes.{tree_at};
ghost use Rattle.rule_node.specs.Table.{Table, RuleRan};
ghost use Rattle.rule_node.specs.EntryMeaning.{rule_of};
ghost use Rattle.rule_unary_node.specs.Acts.{Acts};
ghost use Rattle.rule_unary.specs.Picks.{Picks};

use rule_node::codes::{COMPLEMENT, NUMBER, SCALE, SHIFT};
use rule_node::making::join;
use rule_unary_node::Way;
use rule_unary_node::halves::{high_half, low_half};
use rule_unary_node::leaf::at_leaf;
use rule_unary_node::ways::way_at;
use table::{Made, Stopped};
use table_cache::{keep, look};

// The rule op, 3 to 8, at the diagram f with the numbers p and q. Only indexes live over the calls.
pub fn over(
    nodes: &mut [i64],
    work: &mut [u32],
    cap: usize,
    count: usize,
    op: usize,
    f: usize,
    p: usize,
    q: usize,
) -> Result<Made, Stopped>
    requires { Table rule_of cap nodes.old work.old count × Acts op p q × (f < count) }
    ensures { RuleRan rule_of cap nodes.old work.old count (rule_of nodes.old count op f 0 p q) nodes.new work.new result }
{
    match way_at(nodes, op, f, p) {
        Way::End => at_leaf(nodes, work, cap, count, op, f, p, q),
        Way::Pick(i) => over(nodes, work, cap, count, op, i, p, q),
        Way::Both(high, low) => {
            if let Some(at) = look(work, cap, op, f, 0, p, q) {
                return Ok(Made { at, count });
            }
            let h = over(nodes, work, cap, count, op, high, p, q)?;
            let l = over(nodes, work, cap, h.count, op, low, p, q)?;
            let r = join(nodes, work, cap, l.count, f, h.at, l.at)?;
            keep(work, cap, op, f, 0, p, q, r.at);
            Ok(r)
        }
    }
}

// A side of the diagram f at the next step's condition p: 7 yes, 8 no.
pub fn side(
    nodes: &mut [i64],
    work: &mut [u32],
    cap: usize,
    count: usize,
    op: usize,
    f: usize,
    p: usize,
) -> Result<Made, Stopped>
    requires { Table rule_of cap nodes.old work.old count × Picks op p × (f < count) }
    ensures { RuleRan rule_of cap nodes.old work.old count (rule_of nodes.old count op f 0 p 0) nodes.new work.new result }
{
    over(nodes, work, cap, count, op, f, p, 0)
}

// c times the diagram f.
pub fn scale(
    nodes: &mut [i64],
    work: &mut [u32],
    cap: usize,
    count: usize,
    f: usize,
    c: i64,
) -> Result<Made, Stopped>
    requires { Table rule_of cap nodes.old work.old count × (f < count) }
    ensures { RuleRan rule_of cap nodes.old work.old count (T.scale c (tree_at nodes.old count f)) nodes.new work.new result }
{
    over(nodes, work, cap, count, SCALE, f, low_half(c), high_half(c))
}

// The diagram f plus c.
pub fn shift(
    nodes: &mut [i64],
    work: &mut [u32],
    cap: usize,
    count: usize,
    f: usize,
    c: i64,
) -> Result<Made, Stopped>
    requires { Table rule_of cap nodes.old work.old count × (f < count) × Small c }
    ensures { RuleRan rule_of cap nodes.old work.old count (T.shift c (tree_at nodes.old count f)) nodes.new work.new result }
{
    over(nodes, work, cap, count, SHIFT, f, low_half(c), high_half(c))
}

// weights − the weight diagram f.
pub fn complement(
    nodes: &mut [i64],
    work: &mut [u32],
    cap: usize,
    count: usize,
    f: usize,
    weights: usize,
) -> Result<Made, Stopped>
    requires { Table rule_of cap nodes.old work.old count × (f < count) × (weights ≤ weights_most) }
    ensures { RuleRan rule_of cap nodes.old work.old count (T.complement weights (tree_at nodes.old count f)) nodes.new work.new result }
{
    over(nodes, work, cap, count, COMPLEMENT, f, weights, 0)
}

// The diagram f, its leaves numbered with an action.
pub fn number(
    nodes: &mut [i64],
    work: &mut [u32],
    cap: usize,
    count: usize,
    f: usize,
    action: usize,
) -> Result<Made, Stopped>
    requires { Table rule_of cap nodes.old work.old count × (f < count) × (action ≤ actions_most) }
    ensures { RuleRan rule_of cap nodes.old work.old count (T.number action (tree_at nodes.old count f)) nodes.new work.new result }
{
    over(nodes, work, cap, count, NUMBER, f, action, 0)
}
