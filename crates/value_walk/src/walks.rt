// The walk from a root to a leaf.
ghost use Rattle.std.specs.Prelude.{◌≡◌, T, pos, nat_abs};
ghost use Rattle.std.specs.Int.Signed.{le_z};
ghost use Rattle.whole.specs.Cases.{if};
ghost use Rattle.theory.specs.Meaning.{nth};
ghost use Rattle.theory.specs.Value.{bits, node_word, among_ℤ, node_linear, numerator_of, high_of, low_of, walk};
ghost use Rattle.theory.specs.Valid.{small_linear};
ghost use Rattle.table_rows.specs.Row.{Inside};
ghost use Rattle.value_walk.specs.State.{asked};
ghost use Rattle.value_walk.specs.Step.{step_of};

use super::Asked;
use super::states::{condition, numerator};
use table::{HIGH, LOW};
use table_rows::words::magnitude;
use table_rows::{Kind, row_kind};
use whole::two_words::not_positive;

// The condition of node r is yes.
fn is_yes(n: u32, q: Asked, nodes: &[i64], r: usize) -> bool
    requires { Inside nodes.now r × T (among_ℤ n (node_word nodes.now r 1)) }
    ensures { result ≡ nth (bits n q.mask) (nat_abs (node_word nodes.now r 1)) }
{
    condition(n, q.mask, magnitude(nodes, r, 1) as u32)
}

// The test of node r holds: equality is on the high side.
fn holds(q: Asked, nodes: &[i64], r: usize) -> bool
    requires { Inside nodes.now r × T (small_linear (node_linear nodes.now r)) }
    ensures { result ≡ le_z (numerator_of (asked q) (node_linear nodes.now r)) (pos 0) }
{
    not_positive(numerator(q, nodes, r))
}

fn branch(high: bool, nodes: &[i64], r: usize) -> usize
    requires { Inside nodes.now r }
    ensures { result ≡ nat_abs (if high (high_of nodes.now r) (low_of nodes.now r)) }
{
    if high {
        magnitude(nodes, r, HIGH)
    } else {
        magnitude(nodes, r, LOW)
    }
}

// One step down: a leaf, "none" too, stays where it is, and a refused node goes to 0.
fn step(n: u32, a: u32, q: Asked, nodes: &[i64], r: usize) -> usize
    ensures { result ≡ step_of n a (asked q) nodes.now r }
{
    match row_kind(n, a, nodes, r) {
        Kind::Leaf => r,
        Kind::Condition => branch(is_yes(n, q, nodes, r), nodes, r),
        Kind::Test => branch(holds(q, nodes, r), nodes, r),
        Kind::None => r,
        Kind::Bad => 0,
    }
}

// The leaf that a state comes to from a root, 0 where a node on the way is refused. Each step goes to a lower number.
pub fn walk(n: u32, a: u32, q: Asked, nodes: &[i64], root: usize) -> usize
    ensures { result ≡ walk n a (asked q) nodes.now root root }
{
    let mut r = root;
    let mut below = step(n, a, q, nodes, r);
    while below != r {
        r = below;
        below = step(n, a, q, nodes, r);
    }
    r
}
