// Whether a proposed path is one that no state can take: its tests with their multipliers add up to a contradiction.
#![tactic(auto)]

mod adding; // adding.rt: the numbers of the sum
mod low_sides; // low_sides.rt: whether a low side counts
mod paths; // paths.rt: a path on the rows of a lent table

ghost use Rattle.std.specs.Prelude.{◌≡◌, pos};
ghost use Rattle.std.proofs.Math.Dec.{compare_is_eq};
ghost use Rattle.std.specs.Int.Signed.{le_z};
ghost use Rattle.whole.specs.Numerator.{number};
ghost use Rattle.theory.specs.Diagram.{cmp_ℤ, zeros};
ghost use Rattle.theory.specs.Valid.{all};
ghost use Rattle.prune_paths.specs.Prune.{diagram_at, along, added, low_used, contradicts, path_number};
ghost use Rattle.prune_certificate.specs.Path.{GoodNode, Proposed};

use self::adding::added_at;
use self::low_sides::some_low;
use self::paths::shape;
use whole::two_words::not_positive;
use whole::{NUMBERS, Numerator};

// "an empty path, one with another byte or that does not fit the diagram, or a count of multipliers other than its linear
// tests"
const SHAPE: u32 = 22;

// "then any other proposal"
const NOT_PROVED: u32 = 21;

// x is 0: at most 0, and its high word not below 0.
fn is_zero(x: Numerator) -> bool
    ensures { result ≡ compare_is_eq (cmp_ℤ (number x) (pos 0)) }
{
    if !not_positive(x) {
        return false;
    }
    0 <= x.high
}

// No multiplier is below 0.
fn none_negative(ks: &[i32]) -> bool
    ensures { result ≡ all (le_z (pos 0)) ks.now }
{
    for &k in ks {
        if k < 0 {
            return false;
        }
    }
    true
}

// All coefficients of the sum are 0.
fn cancels(nodes: &[i64], root: u32, turns: &[u8], ks: &[i32]) -> bool
    requires { Proposed nodes.now root turns.now ks.now }
    ensures { result ≡ zeros (added (along turns.now (diagram_at nodes.now root)) ks.now).coeffs }
{
    for w in 1..NUMBERS {
        if !is_zero(added_at(nodes, root, turns, ks, w)) {
            return false;
        }
    }
    true
}

// The sum contradicts itself: no coefficient is left, and the constant is above 0, or 0 with a low side.
fn contradicts(nodes: &[i64], root: u32, turns: &[u8], ks: &[i32]) -> bool
    requires { Proposed nodes.now root turns.now ks.now }
    ensures { result ≡ contradicts (added (along turns.now (diagram_at nodes.now root)) ks.now) (low_used (along turns.now (diagram_at nodes.now root)) ks.now) }
{
    if !cancels(nodes, root, turns, ks) {
        return false;
    }
    let x = added_at(nodes, root, turns, ks, NUMBERS);
    if !not_positive(x) {
        return true;
    }
    if !is_zero(x) {
        return false;
    }
    some_low(nodes, root, turns, ks)
}

// 22 for a path that is none, that does not fit, or that has another count of multipliers; then 21; 0 where the path is accepted.
pub fn path_number(nodes: &[i64], root: u32, turns: &[u8], ks: &[i32]) -> u32
    requires { GoodNode nodes.now root }
    ensures { result ≡ path_number turns.now (diagram_at nodes.now root) ks.now }
{
    if turns.len() == 0 {
        return SHAPE;
    }
    let n = shape(nodes, root, turns);
    if n == 0 {
        return SHAPE;
    }
    if n - 1 != ks.len() {
        return SHAPE;
    }
    if !none_negative(ks) {
        return NOT_PROVED;
    }
    if contradicts(nodes, root, turns, ks) {
        0
    } else {
        NOT_PROVED
    }
}
