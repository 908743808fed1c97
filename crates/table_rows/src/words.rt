// A node's words, judged as they are read.
ghost use Rattle.std.specs.Prelude.{◌≡◌, [], ◌∷◌, ◌<◌, nat_abs};
ghost use Rattle.whole.specs.Within.{small};
ghost use Rattle.theory.specs.Diagram.{zeros};
ghost use Rattle.theory.specs.Widths.{node_words};
ghost use Rattle.theory.specs.Value.{node_word, among_ℤ};
ghost use Rattle.table_rows.specs.Row.{Inside, kind_number};

use table::NODE_WORDS;
use whole::limits::{LIMIT, mag};

// Word i of node r.
pub fn word(nodes: &[i64], r: usize, i: usize) -> i64
    requires { Inside nodes.now r × (i < node_words) }
    ensures { result ≡ node_word nodes.now r i }
{
    nodes[(r - 1) * NODE_WORDS + i]
}

// The magnitude of word i of node r.
pub fn magnitude(nodes: &[i64], r: usize, i: usize) -> usize
    requires { Inside nodes.now r × (i < node_words) }
    ensures { result ≡ nat_abs (node_word nodes.now r i) }
{
    mag(word(nodes, r, i)) as usize
}

// Word i of node r lies within the limits.
pub(crate) fn is_small(nodes: &[i64], r: usize, i: usize) -> bool
    requires { Inside nodes.now r × (i < node_words) }
    ensures { result ≡ small (node_word nodes.now r i) }
{
    mag(word(nodes, r, i)) <= LIMIT
}

// Word i of node r is 0.
pub(crate) fn is_zero(nodes: &[i64], r: usize, i: usize) -> bool
    requires { Inside nodes.now r × (i < node_words) }
    ensures { result ≡ zeros (node_word nodes.now r i ∷ []) }
{
    mag(word(nodes, r, i)) == 0
}

// Word i of node r is 1 to n.
pub(crate) fn is_among(n: usize, nodes: &[i64], r: usize, i: usize) -> bool
    requires { Inside nodes.now r × (i < node_words) }
    ensures { result ≡ among_ℤ n (node_word nodes.now r i) }
{
    let z = word(nodes, r, i);
    z >= 1 && mag(z) as usize <= n
}

// The kind in node r's first word; there is none below 0, and 4 is none.
pub(crate) fn kind(nodes: &[i64], r: usize) -> usize
    requires { Inside nodes.now r }
    ensures { result ≡ kind_number (node_word nodes.now r 0) }
{
    let z = word(nodes, r, 0);
    if z < 0 { 4 } else { mag(z) as usize }
}
