// Single words of a node: recursive functions read them again rather than keep a node.
ghost use Rattle.std.specs.Prelude.{◌≡◌, ◌+◌, ◌*◌, ◌≤◌, ◌<◌, T, pos, nat_abs, length, get_or};
ghost use Rattle.std.specs.Int.Signed.{non_neg};
ghost use Rattle.table.specs.Table.{node_words, node_at, is_leaf};

use rule_node::index;
use table::NODE_WORDS;

// The words of a node that hold its branches.
pub const HIGH: usize = table::HIGH;

pub const LOW: usize = table::LOW;

// Whether node i is a leaf.
pub fn is_leaf(nodes: &[i64], i: usize) -> bool
    requires { i * node_words + node_words ≤ length nodes.now }
    ensures { result ≡ is_leaf (node_at nodes.now i).kind }
{
    // Named, as below: the proof has the bounds of an i64 by its name.
    let kind = nodes[i * NODE_WORDS];
    table::is_leaf(kind)
}

// The index in one of node i's words.
pub fn branch(nodes: &[i64], i: usize, word: usize) -> usize
    requires { (i * node_words + node_words ≤ length nodes.now) × (word < node_words) × T (non_neg (get_or nodes.now (i * node_words + word) (pos 0))) }
    ensures { result ≡ nat_abs (get_or nodes.now (i * node_words + word) (pos 0)) }
{
    let z = nodes[i * NODE_WORDS + word];
    index(z)
}
