// The rule choose on a table's diagrams.
#![tactic(auto)]

pub mod roots; // roots.rt: what a rule of two operands goes on with

ghost use Rattle.std.specs.Prelude.{◌<◌};
ghost use Rattle.theory.specs.Rules as T;
ghost use Rattle.theory.specs.Rules.{node};
ghost use Rattle.rule_node.specs.Nodes.{test_held, tree_at};
ghost use Rattle.rule_node.specs.Table.{Bare, Grew, Table, RuleRan};
ghost use Rattle.rule_node.specs.Roots.{test_node};
ghost use Rattle.rule_node.specs.EntryMeaning.{test_by, NamesTest, rule_of};

use self::roots::choice_of;
use rule_node::making::{join, join_test};
use rule_tests::{stands_at, test_at};
use table::{Made, Stopped};
use table_cache::{keep, look};

// A node of the test that op and p give over two branches.
fn join_choice(
    nodes: &mut [i64],
    work: &mut [u32],
    cap: usize,
    count: usize,
    op: usize,
    p: usize,
    h: usize,
    l: usize,
) -> Result<Made, Stopped>
    requires { Bare cap nodes.old work.old count × NamesTest count op p × (h < count) × (l < count) }
    ensures { Grew cap nodes.old work.old count (node (test_held (test_node nodes.old op p)) (tree_at nodes.old count h) (tree_at nodes.old count l)) nodes.new work.new result }
{
    if stands_at(nodes, op, p) {
        return join(nodes, work, cap, count, p, h, l);
    }
    join_test(nodes, work, cap, count, test_at(nodes, op, p), h, l)
}

// The choice between the diagrams at f and g by the test that op and p give. Only indexes live over the calls.
pub fn choose(
    nodes: &mut [i64],
    work: &mut [u32],
    cap: usize,
    count: usize,
    op: usize,
    p: usize,
    f: usize,
    g: usize,
) -> Result<Made, Stopped>
    requires { Table rule_of cap nodes.old work.old count × NamesTest count op p × (f < count) × (g < count) }
    ensures { RuleRan rule_of cap nodes.old work.old count (T.choose (test_by nodes.old count op p) (tree_at nodes.old count f) (tree_at nodes.old count g)) nodes.new work.new result }
{
    let s = choice_of(nodes, op, p, f, g);
    if s.ends {
        return join_choice(nodes, work, cap, count, op, p, s.fh, s.gl);
    }
    if let Some(at) = look(work, cap, op, f, g, p, 0) {
        return Ok(Made { at, count });
    }
    let h = choose(nodes, work, cap, count, op, p, s.fh, s.gh)?;
    let l = choose(nodes, work, cap, h.count, op, p, s.fl, s.gl)?;
    let r = join(nodes, work, cap, l.count, s.root, h.at, l.at)?;
    keep(work, cap, op, f, g, p, 0, r.at);
    Ok(r)
}
