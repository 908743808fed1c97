// A node's kind and branches, and its branches renumbered.
#![tactic(auto)]

ghost use Rattle.std.specs.Prelude.{◌≡◌, pos, nat_abs, length, ◌*◌, ◌≤◌};
ghost use Rattle.table.specs.Table.{is_leaf, nodes_most};
ghost use Rattle.table_peek.specs.Renumber.{renumber, InsideRoom};

use table::Node;
use whole::limits::mag;

// Whether it has no branches.
pub fn is_leaf(x: Node) -> bool
    ensures { result ≡ is_leaf x.kind }
{
    table::is_leaf(x.kind)
}

// The index of its high branch.
pub fn high(x: Node) -> usize
    ensures { result ≡ nat_abs x.high }
{
    mag(x.high) as usize
}

// The index of its low branch.
pub fn low(x: Node) -> usize
    ensures { result ≡ nat_abs x.low }
{
    mag(x.low) as usize
}

// The node with its branches' new indexes, which the work words have from cap on.
pub fn renumbered(work: &[u32], cap: usize, x: Node) -> Node
    requires { (cap * 2 ≤ length work.now) × (cap ≤ nodes_most) × InsideRoom x cap }
    ensures { result ≡ renumber work.now cap x }
{
    if is_leaf(x) {
        return x;
    }
    Node {
        high: i64::from(work[cap + high(x)]),
        low: i64::from(work[cap + low(x)]),
        ..x
    }
}
