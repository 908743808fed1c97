// The linears of a text as nine numbers, judged by 32 bits.
#![tactic(auto)]

ghost use Rattle.std.specs.Prelude.{◌≡◌, ◌≤◌, pos, length};
ghost use Rattle.whole.specs.Linears.{numbers};
ghost use Rattle.theory.specs.Plain.{in_32_bits};
ghost use Rattle.import_numbers.specs.Numbers.{all_within};
ghost use Rattle.import_linears.specs.Nine.{most, constant9, level9, flat, multiplied};

use whole::linears::equal;
use whole::{COEFFICIENTS, NUMBERS};
use whole_linears::times;

// The greatest number of 32 bits.
pub const MOST: u64 = 2147483647;

// Whether a number is one of 32 bits.
fn fits(z: i64) -> bool
    ensures { result ≡ in_32_bits z }
{
    -2147483648 <= z && z <= 2147483647
}

// Whether all numbers are.
pub fn all_fit(a: [i64; NUMBERS]) -> bool
    ensures { result ≡ all_within a }
{
    for i in 0..NUMBERS {
        if !fits(a[i]) {
            return false;
        }
    }
    true
}

// A number as a linear.
pub fn constant(n: u64) -> [i64; NUMBERS]
    requires { n ≤ most }
    ensures { result ≡ constant9 (pos n) }
{
    let z = n as i64;
    [0, 0, 0, 0, 0, 0, 0, 0, z]
}

// A level as a linear, by its digit.
#[tactic(auto, using(crate::proofs::Laws::level_is), unfolding(crate::specs::Nine::level9))]
pub fn level(k: u8) -> [i64; NUMBERS]
    ensures { result ≡ level9 k }
{
    let mut out = [0i64; NUMBERS];
    if matches!(k, b'1'..=b'8') {
        out[usize::from(k - b'1')] = 1;
    }
    out
}

// Whether a linear has no coefficient but 0.
fn without_level(a: [i64; NUMBERS]) -> bool
    requires { length a ≡ numbers }
    ensures { result ≡ flat a }
{
    equal(a, [0, 0, 0, 0, 0, 0, 0, 0, a[COEFFICIENTS]])
}

// The product of two linears, one of them a constant.
pub fn product(p: [i64; NUMBERS], q: [i64; NUMBERS]) -> [i64; NUMBERS]
    requires { (length p ≡ numbers) × (length q ≡ numbers) }
    ensures { result ≡ multiplied p q }
{
    if without_level(p) {
        times(p[COEFFICIENTS], q)
    } else {
        times(q[COEFFICIENTS], p)
    }
}
