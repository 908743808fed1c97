// Whole numbers in two words divided downward, by long division over 32-bit halves: there are no integers of 128 bits.
#![tactic(auto)]

ghost use Rattle.std.specs.Prelude.{◌≡◌, ◌*◌, ◌^◌, ◌<◌};
ghost use Rattle.whole.specs.Numerator.{number};
ghost use Rattle.whole_division.specs.Floor.{floor_by};
ghost use Rattle.whole_division.specs.Words.{two_words, whole_as, Divided};

use whole::Numerator;

// A whole number: high × 2⁶⁴ + low, or one below zero by its complement, so that -1 has the words 0 and 0.
#[derive(Clone, Copy)]
pub struct Whole {
    pub below: bool,
    pub high: u64,
    pub low: u64,
}

// A quotient in two words, and the remainder.
#[derive(Clone, Copy)]
pub struct Quotient {
    pub high: u64,
    pub low: u64,
    pub rest: u64,
}

// 2³²
const HALF: u64 = 4294967296;

// The high word first, then the low word's halves: each remainder goes before the next half.
pub fn divide(high: u64, low: u64, d: u32) -> Quotient
    requires { 0 < d }
    ensures { Divided (two_words high low) d result }
{
    let by = u64::from(d);
    let upper = high % by * HALF + low / HALF;
    let lower = upper % by * HALF + low % HALF;
    Quotient {
        high: high / by,
        low: upper / by * HALF + lower / by,
        rest: lower % by,
    }
}

// x ÷ d, rounded downward: that of the complement, where x is below zero.
fn divided(x: Whole, d: u32) -> Whole
    requires { 0 < d }
    ensures { whole_as result ≡ floor_by (whole_as x) d }
{
    let q = divide(x.high, x.low, d);
    Whole {
        below: x.below,
        high: q.high,
        low: q.low,
    }
}

// x ÷ w^k, rounded downward, one w at a time.
fn divided_by_power(x: Whole, w: u32, k: u32) -> Whole
    requires { 0 < w }
    ensures { whole_as result ≡ floor_by (whole_as x) (w ^ k) }
{
    let mut y = x;
    for _ in 0..k {
        y = divided(y, w);
    }
    y
}

// The whole number that a numerator's words hold.
pub fn from_words(x: Numerator) -> Whole
    ensures { whole_as result ≡ number x }
{
    let high = x.high.unsigned_abs();
    if x.high < 0 {
        Whole {
            below: true,
            high: high - 1,
            low: u64::MAX - x.low,
        }
    } else {
        Whole {
            below: false,
            high,
            low: x.low,
        }
    }
}

// x ÷ (d × w^k), rounded downward. The divisor itself may need many more bits than two words have.
pub fn whole_part(x: Numerator, d: u32, w: u32, k: u32) -> Whole
    requires { (0 < d) × (0 < w) }
    ensures { whole_as result ≡ floor_by (number x) (d * w ^ k) }
{
    divided_by_power(divided(from_words(x), d), w, k)
}
