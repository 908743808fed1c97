// Sums of products by powers, judged against two words: a product may lie outside of them where the sum lies within, so that one bit more is held on the way.
#![tactic(auto)]

ghost use Rattle.std.specs.Prelude.{◌≡◌, true, false, ◌+◌, ◌-◌, ◌*◌, ◌^◌, ◌<◌, pos, negsuc, ◌+ℤ◌, ◌*ℤ◌};
ghost use Rattle.whole.specs.Cases.{if};
ghost use Rattle.whole.specs.Numerator.{number};
ghost use Rattle.whole_division.specs.Words.{two_words, whole_as};
ghost use Rattle.whole_wide.specs.Wide.{beyond_from, carried, fitted, Holds};

use whole::Numerator;
use whole_division::{Whole, from_words};

// carry × 2¹²⁸ + high × 2⁶⁴ + low
#[derive(Clone, Copy)]
pub struct Carried {
    pub carry: u64,
    pub high: u64,
    pub low: u64,
}

// 2³² and 2⁶³
const HALF: u64 = 4294967296;

const SIGN: u64 = 9223372036854775808;

// (high, low) × w + d, by halves.
fn product(high: u64, low: u64, w: u32, d: u32) -> Carried
    ensures { carried result ≡ two_words high low * w + d }
{
    let by = u64::from(w);
    let p = low % HALF * by + u64::from(d);
    let q = low / HALF * by + p / HALF;
    let r = high % HALF * by + q / HALF;
    let s = high / HALF * by + r / HALF;
    Carried {
        carry: s / HALF,
        high: s % HALF * HALF + r % HALF,
        low: q % HALF * HALF + p % HALF,
    }
}

// (high, low) + (h, l) + d, by halves.
fn sum(high: u64, low: u64, h: u64, l: u64, d: u32) -> Carried
    ensures { carried result ≡ two_words high low + two_words h l + d }
{
    let p = low % HALF + l % HALF + u64::from(d);
    let q = low / HALF + l / HALF + p / HALF;
    let r = high % HALF + h % HALF + q / HALF;
    let s = high / HALF + h / HALF + r / HALF;
    Carried {
        carry: s / HALF,
        high: s % HALF * HALF + r % HALF,
        low: q % HALF * HALF + p % HALF,
    }
}

// d below zero, else 0.
fn when_below(below: bool, d: u32) -> u32
    ensures { result ≡ if below d 0 }
{
    if below { d } else { 0 }
}

// n with its sign, where nothing is carried out of two words.
fn signed(below: bool, n: Carried) -> Option<Whole>
    ensures { Holds beyond_from (if below (negsuc (carried n)) (pos (carried n))) result }
{
    if n.carry == 0 {
        Some(Whole {
            below,
            high: n.high,
            low: n.low,
        })
    } else {
        None
    }
}

// x × w: below zero the complement is that of the product.
fn times(x: Whole, w: u32) -> Option<Whole>
    requires { 0 < w }
    ensures { Holds beyond_from (whole_as x *ℤ pos w) result }
{
    let p = product(x.high, x.low, w, when_below(x.below, w - 1));
    signed(x.below, p)
}

// x × w^k, one w at a time: what is outside stays there.
fn raised(x: Whole, w: u32, k: u32) -> Option<Whole>
    requires { 0 < w }
    ensures { Holds beyond_from (whole_as x *ℤ pos (w ^ k)) result }
{
    let mut y = x;
    for _ in 0..k {
        y = times(y, w)?;
    }
    Some(y)
}

// x + y of one sign.
fn added_alike(x: Whole, y: Whole) -> Option<Whole>
    requires { x.below ≡ y.below }
    ensures { Holds beyond_from (whole_as x +ℤ whole_as y) result }
{
    let s = sum(x.high, x.low, y.high, y.low, when_below(x.below, 1));
    signed(x.below, s)
}

// x + y, y alone below zero: x and the words that y's complement leaves carry where x is the larger.
fn added_across(x: Whole, y: Whole) -> Whole
    requires { (x.below ≡ false) × (y.below ≡ true) }
    ensures { whole_as result ≡ whole_as x +ℤ whole_as y }
{
    let s = sum(x.high, x.low, u64::MAX - y.high, u64::MAX - y.low, 0);
    if s.carry != 0 {
        Whole {
            below: false,
            high: s.high,
            low: s.low,
        }
    } else {
        Whole {
            below: true,
            high: u64::MAX - s.high,
            low: u64::MAX - s.low,
        }
    }
}

// x + y.
fn added(x: Whole, y: Whole) -> Option<Whole>
    ensures { Holds beyond_from (whole_as x +ℤ whole_as y) result }
{
    if x.below == y.below {
        added_alike(x, y)
    } else if x.below {
        Some(added_across(y, x))
    } else {
        Some(added_across(x, y))
    }
}

// The two words of what x holds, if it lies within them.
fn fit(x: Whole) -> Option<Numerator>
    ensures { result ≡ fitted (whole_as x) }
{
    if x.high >= SIGN {
        return None;
    }
    let high = x.high as i64;
    if x.below {
        Some(Numerator {
            low: u64::MAX - x.low,
            high: -1 - high,
        })
    } else {
        Some(Numerator { low: x.low, high })
    }
}

// (x × w^k + y) × w^c
fn scaled_sum(x: Numerator, y: Numerator, w: u32, k: u32, c: u32) -> Option<Numerator>
    requires { 0 < w }
    ensures { result ≡ fitted ((number x *ℤ pos (w ^ k) +ℤ number y) *ℤ pos (w ^ c)) }
{
    let p = raised(from_words(x), w, k)?;
    let s = added(p, from_words(y))?;
    let t = raised(s, w, c)?;
    fit(t)
}

// x × w^p + y × w^q, judged only as a whole. The common power is taken out first, so that one of the two summands of a sum lies in two words.
pub fn total(x: Numerator, y: Numerator, w: u32, p: u32, q: u32) -> Option<Numerator>
    requires { 0 < w }
    ensures { result ≡ fitted (number x *ℤ pos (w ^ p) +ℤ number y *ℤ pos (w ^ q)) }
{
    if p < q {
        scaled_sum(y, x, w, q - p, p)
    } else {
        scaled_sum(x, y, w, p - q, q)
    }
}
