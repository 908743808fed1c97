// Linears as lists of numbers: coefficients, and the constant as the last. Each function is one loop over all of them.
#![tactic(auto)]

ghost use Rattle.std.specs.Prelude.{◌≡◌, ◌*ℤ◌, take};
ghost use Rattle.whole.specs.Divisor.{gcd_all};
ghost use Rattle.whole.specs.Linears.{coefficients, Smalls, smalls, add_list, sub_list, clipped, clip_list, quot_list, divisor_list};

use whole::divisors::{at_least_one, gcd, quot};
use whole::limits::{LIMIT, mag, mul_within};
use whole::{COEFFICIENTS, NUMBERS};

// a + b. Numbers within the limits have sums that fit.
pub fn add(a: [i64; NUMBERS], b: [i64; NUMBERS]) -> [i64; NUMBERS]
    requires { Smalls a × Smalls b }
    ensures { result ≡ add_list a b }
{
    let mut out = [0i64; NUMBERS];
    for i in 0..NUMBERS {
        out[i] = a[i] + b[i];
    }
    out
}

// a - b.
pub fn sub(a: [i64; NUMBERS], b: [i64; NUMBERS]) -> [i64; NUMBERS]
    requires { Smalls a × Smalls b }
    ensures { result ≡ sub_list a b }
{
    let mut out = [0i64; NUMBERS];
    for i in 0..NUMBERS {
        out[i] = a[i] - b[i];
    }
    out
}

// 2⁶², the first number beyond the limits.
const BEYOND: i64 = 4611686018427387904;

// a × b, or a number beyond the limits where it lies beyond them: a product need not fit.
pub fn product(a: i64, b: i64) -> i64
    ensures { result ≡ clipped (a *ℤ b) }
{
    mul_within(a, b).unwrap_or(BEYOND)
}

// k × a, each number so.
pub fn times(k: i64, a: [i64; NUMBERS]) -> [i64; NUMBERS]
    ensures { result ≡ clip_list k a }
{
    let mut out = [0i64; NUMBERS];
    for i in 0..NUMBERS {
        out[i] = product(k, a[i]);
    }
    out
}

// Whether all lie within the limits.
pub fn within(a: [i64; NUMBERS]) -> bool
    ensures { result ≡ smalls a }
{
    for i in 0..NUMBERS {
        if mag(a[i]) > LIMIT {
            return false;
        }
    }
    true
}

// The greatest common divisor of the coefficients, from the last to the first.
fn gcd_first(a: [i64; NUMBERS]) -> u64
    ensures { result ≡ gcd_all (take coefficients a) }
{
    let mut g: u64 = 0;
    for i in (0..COEFFICIENTS).rev() {
        g = gcd(mag(a[i]), g);
    }
    g
}

// What a test is divided by: 1 where all its numbers are 0.
fn divisor(a: [i64; NUMBERS]) -> u64
    ensures { result ≡ divisor_list a }
{
    at_least_one(gcd(mag(a[COEFFICIENTS]), gcd_first(a)))
}

// Each number divided by the greatest common divisor of all.
pub fn divided(a: [i64; NUMBERS]) -> [i64; NUMBERS]
    requires { Smalls a }
    ensures { result ≡ quot_list (divisor_list a) a }
{
    let g = divisor(a);
    // Mostly there is nothing to divide by.
    if g == 1 {
        return a;
    }
    let mut out = [0i64; NUMBERS];
    for i in 0..NUMBERS {
        out[i] = quot(a[i], g);
    }
    out
}
