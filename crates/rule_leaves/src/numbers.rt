// The linears of two leaves added, subtracted and multiplied, each as the leaf that it would be. Nothing is judged here.
ghost use Rattle.std.specs.Prelude.{◌≡◌, ◌+◌, ◌*◌, ◌≤◌, pos, length};
ghost use Rattle.std.specs.Int.Signed.{le_z};
ghost use Rattle.whole.specs.Cases.{if};
ghost use Rattle.table.specs.Table.{node_words, node_at};
ghost use Rattle.theory.specs.Diagram.{zeros};
ghost use Rattle.rule_node.specs.Nodes.{linear_held, constant_of, Nums};
ghost use Rattle.rule_leaves.specs.Leaves.{leaf_node, sum_node, less_node, product_node, stays_none};

use table::Node;
use whole::{COEFFICIENTS, NUMBERS};
use whole_linears::{add, sub, times};

// A leaf of these numbers, without action.
pub fn leaf_of(n: [i64; NUMBERS]) -> Node
    ensures { result ≡ leaf_node n }
{
    Node {
        kind: 0,
        n,
        high: 0,
        low: 0,
    }
}

// x + y. Numbers within the limits have sums that fit.
pub fn plus(x: Node, y: Node) -> Node
    requires { Nums x × Nums y }
    ensures { result ≡ sum_node x y }
{
    leaf_of(add(x.n, y.n))
}

// x - y.
pub fn less(x: Node, y: Node) -> Node
    requires { Nums x × Nums y }
    ensures { result ≡ less_node x y }
{
    leaf_of(sub(x.n, y.n))
}

// k × y; a number beyond the limits is seen to be.
pub fn product(k: i64, y: Node) -> Node
    ensures { result ≡ product_node k y }
{
    leaf_of(times(k, y.n))
}

// Whether k times the leaf at index g is the leaf "none".
pub fn stays_none(nodes: &[i64], k: i64, g: usize) -> bool
    requires { g * node_words + node_words ≤ length nodes.now }
    ensures { result ≡ stays_none k (node_at nodes.now g) }
{
    k != 0 && table::none_at(nodes, g)
}

// A linear's constant.
pub fn constant(x: Node) -> i64
    ensures { result ≡ constant_of x }
{
    x.n[COEFFICIENTS]
}

// Whether a linear has no coefficient but 0.
pub fn is_constant(x: Node) -> bool
    ensures { result ≡ zeros (linear_held x).coeffs }
{
    x.n[..COEFFICIENTS].iter().all(|&z| z == 0)
}

// f where k ≤ 0, and else g.
pub fn decided(k: i64, f: usize, g: usize) -> usize
    ensures { result ≡ if (le_z k (pos 0)) f g }
{
    if k <= 0 { f } else { g }
}
