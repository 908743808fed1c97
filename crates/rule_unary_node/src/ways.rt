// What a rule goes on with at a node.
ghost use Rattle.std.specs.Prelude.{◌≡◌, ◌≤◌};
ghost use Rattle.std.specs.Ordering.{ordering_index};
ghost use Rattle.table.specs.Table.{node_at};
ghost use Rattle.theory.specs.Widths.{conditions_most};
ghost use Rattle.rule_node.specs.Codes.{yes_side_code};
ghost use Rattle.rule_node.specs.Nodes.{At};
ghost use Rattle.rule_unary_node.specs.Acts.{way_by, way_of};

use super::Way;
use rule_node::Down;
use rule_node::codes::YES_SIDE;
use rule_tests::{below_at, later, order_from};
use std::cmp::Ordering;

// The way on from what lies below a node, o being the order of its test and the condition that is picked by.
fn way_on(d: Down, op: usize, o: Ordering) -> Way
    ensures { result ≡ way_by d op (ordering_index o) }
{
    if d.ends {
        return Way::End;
    }
    let Ordering::Equal = o else {
        return Way::Both(d.high, d.low);
    };
    Way::Pick(if op == YES_SIDE { d.high } else { d.low })
}

// The same by the order's number: 1 equal, any other not.
pub fn way(d: Down, op: usize, o: usize) -> Way
    ensures { result ≡ way_by d op o }
{
    if o == 1 {
        return way_on(d, op, Ordering::Equal);
    }
    way_on(d, op, Ordering::Less)
}

// What the rule op goes on with at f. Only a side looks for its condition.
pub fn way_at(nodes: &[i64], op: usize, f: usize, p: usize) -> Way
    requires { At nodes.now f × (yes_side_code ≤ op → p ≤ conditions_most) }
    ensures { result ≡ way_of op p (node_at nodes.now f) }
{
    let d = below_at(nodes, f);
    if op < YES_SIDE {
        return way_on(d, op, Ordering::Less);
    }
    way_on(d, op, order_from(nodes, f, later(p)))
}
