// Numerators in two words: products and sums that one word cannot hold.
ghost use Rattle.std.specs.Prelude.{◌≡◌, ◌*◌, ◌≤◌, pos, ◌*ℤ◌, neg_ℤ, int_le};
ghost use Rattle.whole.specs.Within.{limit, Small};
ghost use Rattle.whole.specs.Numerator.{number, words};
ghost use Rattle.whole.specs.NumeratorLaws.{turned, Times, Product, Turned, SumOf};

use super::Numerator;
use super::limits::mag;

// 2³²
const HALF: u64 = 4294967296;

// The product of two magnitudes, by the 32-bit halves of the first.
fn times(p: u64, q: u64) -> Numerator
    requires { (p ≤ limit) × (q ≤ 2147483648) }
    ensures { Times p q result }
{
    let low = p % HALF * q;
    let mid = p / HALF * q + low / HALF;
    let high = (mid / HALF) as i64;
    Numerator {
        low: mid % HALF * HALF + low % HALF,
        high,
    }
}

// -x. The low word is what it lacks of 2⁶⁴, which borrows one from the high word, unless it is 0.
fn negated(x: Numerator) -> Numerator
    requires { Small x.high }
    ensures { Turned (neg_ℤ (number x)) x result }
{
    let low = x.low;
    let high = -x.high;
    if low == 0 {
        Numerator { low: 0, high }
    } else {
        Numerator {
            low: u64::MAX - low + 1,
            high: high - 1,
        }
    }
}

// x, negated where z is negative.
fn with_sign(x: Numerator, z: i64) -> Numerator
    requires { Small x.high }
    ensures { Turned (turned z (number x)) x result }
{
    if z < 0 { negated(x) } else { x }
}

// a × b: the magnitudes, and then the sign of each.
pub fn product(a: i64, b: i32) -> Numerator
    requires { Small a }
    ensures { Product (a *ℤ b) result }
{
    let w = i64::from(b);
    let x = times(mag(a), mag(w));
    with_sign(with_sign(x, a), w)
}

// x + y. The low words' sum wraps where it is below one of them, and is carried.
pub fn sum(x: Numerator, y: Numerator) -> Numerator
    requires { Small x.high × Small y.high }
    ensures { SumOf x y result }
{
    let low = x.low.wrapping_add(y.low);
    let high = x.high + y.high;
    if low < x.low {
        Numerator {
            low,
            high: high + 1,
        }
    } else {
        Numerator { low, high }
    }
}

// The two words of a number that one word holds.
pub fn from_word(z: i64) -> Numerator
    ensures { result ≡ words z }
{
    let n = mag(z);
    if z < 0 {
        Numerator {
            low: u64::MAX - (n - 1),
            high: -1,
        }
    } else {
        Numerator { low: n, high: 0 }
    }
}

// x is at most 0: its high word is below 0, or both are 0.
pub fn not_positive(x: Numerator) -> bool
    ensures { result ≡ int_le (number x) (pos 0) }
{
    x.high < 0 || x.high == 0 && x.low == 0
}
