// Accepted states, and what conditions and linears come to at them.
ghost use Rattle.std.specs.Prelude.{◌≡◌, ◌^◌, ◌≤◌, T, ltb, pos, drop};
ghost use Rattle.std.specs.Int.Signed.{le_z};
ghost use Rattle.whole.specs.Numerator.{words};
ghost use Rattle.theory.specs.Diagram.{zeros};
ghost use Rattle.theory.specs.Meaning.{nth};
ghost use Rattle.theory.specs.Value.{accepted, bits, numerator_of, node_linear};
ghost use Rattle.theory.specs.Valid.{small_linear};
ghost use Rattle.table_rows.specs.Row.{Inside};
ghost use Rattle.value_walk.specs.State.{asked};

use super::Asked;
use table::get;
use whole::dot_product::dot;
use whole::{COEFFICIENTS, Numerator};

// No numerator beyond level m differs from 0.
fn levels_fit(m: u32, q: Asked) -> bool
    ensures { result ≡ zeros (drop m (asked q).nums) }
{
    for i in m as usize..COEFFICIENTS {
        if q.n[i] != 0 {
            return false;
        }
    }
    true
}

// No bit n or above.
fn mask_fits(n: u32, mask: u32) -> bool
    ensures { result ≡ ltb mask (2 ^ n) }
{
    n >= u32::BITS || mask >> n == 0
}

pub fn accepted(m: u32, n: u32, q: Asked) -> bool
    ensures { result ≡ accepted m n (asked q) }
{
    q.n[COEFFICIENTS] >= 1 && mask_fits(n, q.mask) && levels_fit(m, q)
}

// Condition k of n, as the mask has it. A mask has 32 bits.
pub fn condition(n: u32, mask: u32, k: u32) -> bool
    requires { (1 ≤ k) × (k ≤ n) }
    ensures { result ≡ nth (bits n mask) k }
{
    k <= u32::BITS && (mask >> (k - 1)) % 2 == 1
}

// The numerator of node r's linear at a state.
pub fn numerator(q: Asked, nodes: &[i64], r: usize) -> Numerator
    requires { Inside nodes.now r × T (small_linear (node_linear nodes.now r)) }
    ensures { result ≡ words (numerator_of (asked q) (node_linear nodes.now r)) }
{
    dot(get(nodes, r - 1).n, q.n)
}
