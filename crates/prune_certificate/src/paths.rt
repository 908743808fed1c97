// A path on the rows of a lent table.
ghost use Rattle.std.specs.Prelude.{◌≡◌, nat_abs};
ghost use Rattle.theory.specs.Value.{node_word, ends};
ghost use Rattle.prune_paths.specs.Prune.{diagram_at};
ghost use Rattle.prune_certificate.specs.Path.{GoodNode, tests, goes, shape_of};

use table::{HIGH, LOW};
use table_rows::words::{magnitude, word};

// The kind of a linear test.
const TEST: usize = 2;

// How many linear tests node r is.
pub fn tests(nodes: &[i64], r: usize) -> usize
    requires { GoodNode nodes.now r }
    ensures { result ≡ tests nodes.now r }
{
    if magnitude(nodes, r, 0) == TEST { 1 } else { 0 }
}

// Node r is a leaf, with numbers or "none".
fn is_leaf(nodes: &[i64], r: usize) -> bool
    requires { GoodNode nodes.now r }
    ensures { result ≡ ends (nat_abs (node_word nodes.now r 0)) }
{
    table::is_leaf(word(nodes, r, 0))
}

// The branch that a turn takes at node r, 0 where it fits none.
pub fn goes(nodes: &[i64], r: usize, turn: u8) -> usize
    requires { GoodNode nodes.now r }
    ensures { result ≡ goes nodes.now r turn }
{
    if is_leaf(nodes, r) {
        return 0;
    }
    if turn == 1 {
        return magnitude(nodes, r, HIGH);
    }
    if turn == 0 {
        return magnitude(nodes, r, LOW);
    }
    0
}

// One more than the linear tests of a path, 0 where it does not fit.
pub fn shape(nodes: &[i64], root: u32, turns: &[u8]) -> usize
    requires { GoodNode nodes.now root }
    ensures { result ≡ shape_of turns.now (diagram_at nodes.now root) }
{
    let mut r = root as usize;
    let mut count = 1;
    for &turn in turns {
        let below = goes(nodes, r, turn);
        if below == 0 {
            return 0;
        }
        count += tests(nodes, r);
        r = below;
    }
    count
}
