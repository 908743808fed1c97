// The sum of a path's tests with their multipliers, number by number.
ghost use Rattle.std.specs.Prelude.{◌≡◌, ◌≤◌, T, pos, neg_ℤ, get_or};
ghost use Rattle.std.specs.Int.Signed.{le_z};
ghost use Rattle.whole.specs.Cases.{if};
ghost use Rattle.whole.specs.Within.{Small};
ghost use Rattle.whole.specs.Linears.{numbers};
ghost use Rattle.whole.specs.Numerator.{number};
ghost use Rattle.prune_paths.specs.Prune.{diagram_at, along, added};
ghost use Rattle.prune_certificate.specs.Path.{GoodNode, Proposed, GivenMultiplier, Joined, number_at, part};

use super::paths::{goes, tests};
use table_rows::words::word;
use whole::Numerator;
use whole::two_words::{product, sum};

// A multiplier, negated for a low side.
fn signed(high: bool, k: i32) -> i32
    requires { T (le_z (pos 0) k) }
    ensures { result ≡ if high k (neg_ℤ k) }
{
    if high { k } else { -k }
}

// What node r adds to number w of the sum: nothing where it is no test.
fn with_test(
    total: Numerator,
    nodes: &[i64],
    r: usize,
    w: usize,
    turn: u8,
    ks: &[i32],
    j: usize,
) -> Numerator
    requires { Small total.high × GoodNode nodes.now r × (1 ≤ w) × (w ≤ numbers) × GivenMultiplier nodes.now r ks.now j }
    ensures { Joined total (part nodes.now r w turn (get_or ks.now j (pos 0))) result }
{
    if tests(nodes, r) == 1 {
        let k = ks[j];
        let z = word(nodes, r, w);
        sum(total, product(z, signed(turn == 1, k)))
    } else {
        total
    }
}

// Number w of the sum: each test's number times its multiplier.
pub fn added_at(nodes: &[i64], root: u32, turns: &[u8], ks: &[i32], w: usize) -> Numerator
    requires { Proposed nodes.now root turns.now ks.now × (1 ≤ w) × (w ≤ numbers) }
    ensures { number result ≡ number_at w (added (along turns.now (diagram_at nodes.now root)) ks.now) }
{
    let mut r = root as usize;
    let mut total = Numerator { low: 0, high: 0 };
    let mut j = 0;
    for i in 0..turns.len() {
        let turn = turns[i];
        total = with_test(total, nodes, r, w, turn, ks, j);
        j += tests(nodes, r);
        r = goes(nodes, r, turn);
    }
    total
}
