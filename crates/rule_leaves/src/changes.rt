// One leaf changed: each gives the leaf that it would be.
ghost use Rattle.std.specs.Prelude.{◌≡◌, ◌≤◌};
ghost use Rattle.whole.specs.Within.{Small};
ghost use Rattle.theory.specs.Widths.{weights_most, actions_most};
ghost use Rattle.rule_node.specs.Nodes.{Nums};
ghost use Rattle.rule_leaves.specs.Leaves.{shift_node, complement_node, number_node};

use crate::numbers::leaf_of;
use table::Node;
use whole::COEFFICIENTS;

// A leaf plus c. The sum of two numbers within the limits fits.
pub fn shifted(x: Node, c: i64) -> Node
    requires { Nums x × Small c }
    ensures { result ≡ shift_node c x }
{
    let mut n = x.n;
    n[COEFFICIENTS] += c;
    leaf_of(n)
}

// weights − a leaf that is a weight.
pub fn complemented(x: Node, weights: usize) -> Node
    requires { Nums x × (weights ≤ weights_most) }
    ensures { result ≡ complement_node weights x }
{
    let mut n = x.n;
    n[COEFFICIENTS] = weights as i64 - n[COEFFICIENTS];
    leaf_of(n)
}

// A leaf numbered with an action.
pub fn numbered(x: Node, action: usize) -> Node
    requires { action ≤ actions_most }
    ensures { result ≡ number_node action x }
{
    let n = x.n;
    Node {
        kind: 0,
        n,
        high: action as i64,
        low: 0,
    }
}
