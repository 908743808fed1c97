// The node table: nodes of NODE_WORDS words each, one after another.
#![tactic(auto)]

ghost use Rattle.std.specs.Prelude.{◌≡◌, ◌+◌, ◌*◌, ◌≤◌, length};
ghost use Rattle.table.specs.Table.{node_words, node_at, put_at, SameNode, is_leaf, is_none, stop_number};

use whole::{COEFFICIENTS, NUMBERS};

// A node's words: its kind, its numbers, and high and low behind them.
pub const NODE_WORDS: usize = NUMBERS + 3;

// "What the tables hold, N, is the least of .. and 65,535"
pub const NODES_MOST: usize = 65535;

pub const HIGH: usize = NUMBERS + 1;

pub const LOW: usize = NUMBERS + 2;

// The kind of a leaf with a linear.
pub const LEAF: i64 = 0;

// The kind of the leaf "none".
pub const NONE: i64 = 3;

// Kind 0 is a leaf: its linear, the constant as the last number, its action as high, 0 as low. Kind 1 is a condition,
// its number as the first and zeros after; kind 2 is a test, its linear; both with the indexes of their branches. Kind 3
// is the leaf "none", zeros after.
#[derive(Clone, Copy, PartialEq, Eq)]
pub struct Node {
    pub kind: i64,
    pub n: [i64; NUMBERS],
    pub high: i64,
    pub low: i64,
}

// What a look-up, an append or a rule came to: a node's index, and how many nodes the table then has.
#[derive(Clone, Copy)]
pub struct Made {
    pub at: usize,
    pub count: usize,
}

// Why one stops.
#[derive(Clone, Copy, PartialEq, Eq)]
pub enum Stop {
    // The table is full.
    Full,
    // A rule names a number outside its limits.
    Over,
}

// What stopped it, and how many nodes the table then has.
#[derive(Clone, Copy)]
pub struct Stopped {
    pub why: Stop,
    pub count: usize,
}

impl Stop {
    // The number that callers from outside are told.
    pub fn number(self) -> usize
        ensures { result ≡ stop_number self }
    {
        match self {
            Stop::Full => 12,
            Stop::Over => 11,
        }
    }
}

// Whether a node of this kind ends a diagram.
pub fn is_leaf(kind: i64) -> bool
    ensures { result ≡ is_leaf kind }
{
    kind == LEAF || kind == NONE
}

// Whether the node at index i is the leaf "none".
pub fn none_at(nodes: &[i64], i: usize) -> bool
    requires { i * node_words + node_words ≤ length nodes.now }
    ensures { result ≡ is_none (node_at nodes.now i).kind }
{
    nodes[i * NODE_WORDS] == NONE
}

// The node at index i.
pub fn get(nodes: &[i64], i: usize) -> Node
    requires { i * node_words + node_words ≤ length nodes.now }
    ensures { result ≡ node_at nodes.now i }
{
    let at = i * NODE_WORDS;
    // Number by number: a copied slice passes through memory, and rules read nodes more often than all else.
    let mut n = [0; NUMBERS];
    for k in 0..NUMBERS {
        n[k] = nodes[at + 1 + k];
    }
    Node {
        kind: nodes[at],
        n,
        high: nodes[at + HIGH],
        low: nodes[at + LOW],
    }
}

// Stores a node at index i.
pub fn put(nodes: &mut [i64], i: usize, x: Node)
    requires { i * node_words + node_words ≤ length nodes.old }
    ensures { nodes.new ≡ put_at nodes.old i x }
{
    let at = i * NODE_WORDS;
    nodes[at] = x.kind;
    nodes[at + 1..at + HIGH].copy_from_slice(&x.n);
    nodes[at + HIGH] = x.high;
    nodes[at + LOW] = x.low;
}

// Whether two nodes are equal, word by word.
pub fn same(x: Node, y: Node) -> bool
    ensures { SameNode x y result }
{
    x == y
}

// Whether the node at index i is x: the words that differ most often are compared first, before all are read.
pub fn is_at(nodes: &[i64], i: usize, x: Node) -> bool
    requires { i * node_words + node_words ≤ length nodes.now }
    ensures { SameNode (node_at nodes.now i) x result }
{
    let at = i * NODE_WORDS;
    if nodes[at + LOW] != x.low || nodes[at + 1 + COEFFICIENTS] != x.n[COEFFICIENTS] {
        return false;
    }
    same(get(nodes, i), x)
}
