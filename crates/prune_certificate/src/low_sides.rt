// "zero with some low side's multiplier above zero"
ghost use Rattle.std.specs.Prelude.{◌≡◌, ◌<◌, pos, length, get_or};
ghost use Rattle.prune_paths.specs.Prune.{diagram_at, along, low_used};
ghost use Rattle.prune_certificate.specs.Path.{Proposed, low_here};

use super::paths::{goes, tests};

// A low side that counts: a test, a turn to its low side, and a multiplier above 0.
#[tactic(auto, unfolding(crate::specs::Path::low_here))]
fn low_here(n: usize, turn: u8, ks: &[i32], j: usize) -> bool
    requires { n ≡ 1 → j < length ks.now }
    ensures { result ≡ low_here n turn (get_or ks.now j (pos 0)) }
{
    n == 1 && turn != 1 && 1 <= ks[j]
}

// Some low side's multiplier is above 0.
pub fn some_low(nodes: &[i64], root: u32, turns: &[u8], ks: &[i32]) -> bool
    requires { Proposed nodes.now root turns.now ks.now }
    ensures { result ≡ low_used (along turns.now (diagram_at nodes.now root)) ks.now }
{
    let mut r = root as usize;
    let mut j = 0;
    for &turn in turns {
        let n = tests(nodes, r);
        if low_here(n, turn, ks, j) {
            return true;
        }
        j += n;
        r = goes(nodes, r, turn);
    }
    false
}
