// Nodes looked up or made. The cache's words are left alone.
ghost use Rattle.std.specs.Prelude.{◌≡◌, ◌<◌};
ghost use Rattle.table.specs.Table.{node_at};
ghost use Rattle.theory.specs.Computation.{make};
ghost use Rattle.theory.specs.Rules.{node, make_leaf, none_leaf};
ghost use Rattle.theory.specs.Valid.{small_linear};
ghost use Rattle.rule_node.specs.Nodes.{linear_held, test_held, tree_of, trees, tree_at, Valid, Proper, Root, Plain};
ghost use Rattle.rule_node.specs.Table.{Bare, Grew};

use super::narrowing::narrowed;
use table::{Made, NONE, Node, Stop, Stopped};
use whole::NUMBERS;

// Looks a node up or makes it.
pub fn intern(
    nodes: &mut [i64],
    work: &mut [u32],
    cap: usize,
    count: usize,
    x: Node,
) -> Result<Made, Stopped>
    requires { Bare cap nodes.old work.old count × Valid x count }
    ensures { Grew cap nodes.old work.old count (make (tree_of x (trees nodes.old count))) nodes.new work.new result }
{
    table_unique::find_or_make(nodes, work, cap, count, x)
}

// A node of t's test over two branches, the low one replaced first, or the branch where they are one.
pub fn join_test(
    nodes: &mut [i64],
    work: &mut [u32],
    cap: usize,
    count: usize,
    t: Node,
    h: usize,
    l: usize,
) -> Result<Made, Stopped>
    requires { Bare cap nodes.old work.old count × Proper t × (h < count) × (l < count) }
    ensures { Grew cap nodes.old work.old count (node (test_held t) (tree_at nodes.old count h) (tree_at nodes.old count l)) nodes.new work.new result }
{
    let k = narrowed(nodes, count, t, l);
    if h == k {
        return Ok(Made { at: h, count });
    }
    let x = Node {
        high: h as i64,
        low: k as i64,
        ..t
    };
    intern(nodes, work, cap, count, x)
}

// The same with the test of node t.
pub fn join(
    nodes: &mut [i64],
    work: &mut [u32],
    cap: usize,
    count: usize,
    t: usize,
    h: usize,
    l: usize,
) -> Result<Made, Stopped>
    requires { Bare cap nodes.old work.old count × Root nodes.old count t × (h < count) × (l < count) }
    ensures { Grew cap nodes.old work.old count (node (test_held (node_at nodes.old t)) (tree_at nodes.old count h) (tree_at nodes.old count l)) nodes.new work.new result }
{
    let x = table::get(nodes, t);
    join_test(nodes, work, cap, count, x, h, l)
}

// The leaf "none".
pub fn make_none(
    nodes: &mut [i64],
    work: &mut [u32],
    cap: usize,
    count: usize,
) -> Result<Made, Stopped>
    requires { Bare cap nodes.old work.old count }
    ensures { Grew cap nodes.old work.old count (make none_leaf) nodes.new work.new result }
{
    let x = Node {
        kind: NONE,
        n: [0; NUMBERS],
        high: 0,
        low: 0,
    };
    intern(nodes, work, cap, count, x)
}

// Whether a linear's numbers all lie within the limits.
pub fn within(x: Node) -> bool
    ensures { result ≡ small_linear (linear_held x) }
{
    whole_linears::within(x.n)
}

// A leaf without action, its numbers judged first.
pub fn make_leaf(
    nodes: &mut [i64],
    work: &mut [u32],
    cap: usize,
    count: usize,
    s: Node,
) -> Result<Made, Stopped>
    requires { Bare cap nodes.old work.old count × Plain s }
    ensures { Grew cap nodes.old work.old count (make_leaf (linear_held s)) nodes.new work.new result }
{
    if !within(s) {
        return Err(Stopped {
            why: Stop::Over,
            count,
        });
    }
    intern(nodes, work, cap, count, s)
}
