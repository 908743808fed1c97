// What a low branch is replaced by: on the low side of a test, one with the same coefficients and a larger constant is
// never true. Nothing is made here: a low branch's own low side lies in the table already.
ghost use Rattle.std.specs.Prelude.{◌≡◌, ◌*◌, ◌≤◌, ◌<◌, length};
ghost use Rattle.table.specs.Table.{node_words};
ghost use Rattle.theory.specs.Rules.{narrowed as narrowed-by};
ghost use Rattle.rule_node.specs.Nodes.{test_held, tree_at, Good, Proper};
ghost use Rattle.rule_node.specs.Roots.{parallel_of};

use super::index;
use table::Node;
use whole::COEFFICIENTS;
use whole::linears::equal;

// Whether y is the linear test x with a larger constant.
fn parallel(x: Node, y: Node) -> bool
    ensures { result ≡ parallel_of x y }
{
    if x.kind != 2 {
        return false;
    }
    if y.kind != 2 {
        return false;
    }
    let mut a = x.n;
    let b = y.n;
    let c = a[COEFFICIENTS];
    let d = b[COEFFICIENTS];
    if c < d {
        a[COEFFICIENTS] = d;
        return equal(a, b);
    }
    false
}

// The low branch l of the test t, or what it is replaced by.
pub fn narrowed(nodes: &[i64], count: usize, t: Node, l: usize) -> usize
    requires { Good nodes.now count × (count * node_words ≤ length nodes.now) × Proper t × (l < count) }
    ensures { (result < count) × (tree_at nodes.now count result ≡ narrowed-by (test_held t) (tree_at nodes.now count l)) }
{
    let mut at = l;
    loop {
        let x = table::get(nodes, at);
        if !parallel(t, x) {
            return at;
        }
        at = index(x.low);
    }
}
