// Numbers kept within their limits: a reward, a product, a running sum, a next level.
#![tactic(auto)]

ghost use Rattle.std.specs.Prelude.{◌≡◌, ◌≤◌, leb, ltb, pos, negsuc, ◌*ℤ◌};
ghost use Rattle.whole.specs.Within.{limit, limited};
ghost use Rattle.whole.specs.Numerator.{number};
ghost use Rattle.theory.specs.Verdict.{or};
ghost use Rattle.theory.specs.Plain.{numbered as Numbered-of, better as better-of};
ghost use Rattle.plain_limits.specs.Totals.{total_of, judged_32, times_of, added_of, tried, summed, KeptSum, stopped, is_over};

use whole::Numerator;
use whole::limits::{LIMIT, add_within, mul_within};

// A worth and the action that has it, none, or a number left its limits.
#[derive(Clone, Copy)]
pub enum Total {
    Is(i64, u16),
    None,
    Over,
}

fn not_negative(n: u64) -> Option<i64>
    ensures { result ≡ limited (pos n) }
{
    if n <= LIMIT { Some(n as i64) } else { None }
}

// −1 − n.
fn negative(n: u64) -> Option<i64>
    ensures { result ≡ limited (negsuc n) }
{
    if n < LIMIT { Some(-1 - n as i64) } else { None }
}

// The number that two words hold, where it lies within the limits: the high word is then 0 or −1.
pub fn narrow(x: Numerator) -> Option<i64>
    ensures { result ≡ limited (number x) }
{
    let Numerator { low, high } = x;
    if 0 < high {
        return None;
    }
    if high < -1 {
        return None;
    }
    if high < 0 {
        return negative(u64::MAX - low);
    }
    not_negative(low)
}

// The numbers of 32 bits.
const LEAST: i64 = -2147483648;

const MOST: i64 = 2147483647;

fn judged(z: i64) -> Option<i32>
    ensures { result ≡ judged_32 z }
{
    if z < LEAST || MOST < z {
        return None;
    }
    Some(z as i32)
}

// "a next state's numerator .. leaves 32 bits"
pub fn in_32_bits(x: Numerator) -> Option<i32>
    ensures { result ≡ judged_32 (number x) }
{
    judged(narrow(x)?)
}

// 2³¹ − 1: two such magnitudes have a product within the limits, which no division has to tell.
const SHORT: u64 = 2147483647;

// a × b.
fn product(a: i64, b: i64) -> Option<i64>
    ensures { result ≡ limited (a *ℤ b) }
{
    if a.unsigned_abs() > SHORT || b.unsigned_abs() > SHORT {
        return mul_within(a, b);
    }
    Some(a * b)
}

// p × z, where both and the product lie within the limits.
pub fn times(p: Option<i64>, z: Option<i64>) -> Option<i64>
    ensures { result ≡ times_of p z }
{
    product(p?, z?)
}

// A number as a worth; the action is numbered later.
#[tactic(auto, unfolding(crate::specs::Totals::total_of, crate::specs::Totals::summed))]
pub fn worth_of(z: Option<i64>) -> Total
    ensures { total_of result ≡ summed z }
{
    match z {
        Some(v) => Total::Is(v, 0),
        None => Total::Over,
    }
}

// The running sum with weight × worth; none stays none.
pub fn added(sum: Total, w: u64, t: Total) -> Total
    requires { KeptSum (total_of sum) × (w ≤ limit) }
    ensures { total_of result ≡ added_of (total_of sum) w (total_of t) }
{
    let Total::Is(s, _) = sum else {
        return sum;
    };
    let Total::Is(v, _) = t else {
        return t;
    };
    let Some(p) = product(w as i64, v) else {
        return Total::Over;
    };
    worth_of(add_within(s, p))
}

// The worth, as that of action a.
#[tactic(auto, unfolding(crate::specs::Totals::total_of, theory::specs::Plain::numbered))]
pub fn numbered(a: u16, t: Total) -> Total
    ensures { total_of result ≡ Numbered-of a (total_of t) }
{
    match t {
        Total::Is(z, _) => Total::Is(z, a),
        _ => t,
    }
}

// The larger of v, the worth of action b, and action a's worth, the earlier where they are equal; none loses.
#[tactic(auto, unfolding(crate::specs::Totals::total_of, theory::specs::Plain::better))]
fn larger(v: i64, b: u16, a: u16, t: Total) -> Total
    ensures { total_of result ≡ better-of v b a (total_of t) }
{
    match t {
        Total::Is(u, _) if u <= v => Total::Is(v, b),
        Total::Is(u, _) => Total::Is(u, a),
        Total::None => Total::Is(v, b),
        Total::Over => t,
    }
}

// The better of the best so far and action a's worth.
pub fn better(best: Total, a: u16, t: Total) -> Total
    ensures { total_of result ≡ tried (total_of best) a (total_of t) }
{
    match best {
        Total::Is(v, b) => larger(v, b, a, t),
        Total::None => numbered(a, t),
        Total::Over => best,
    }
}

// No setting is left, or the sum is none or over.
#[tactic(auto, unfolding(crate::specs::Totals::total_of, crate::specs::Totals::stopped))]
pub fn settings_done(sum: Total, r: u32, count: u32) -> bool
    ensures { result ≡ or (stopped (total_of sum)) (leb count r) }
{
    !matches!(sum, Total::Is(_, _)) || count <= r
}

// No action is left, or the best so far is over.
#[tactic(auto, unfolding(crate::specs::Totals::total_of, crate::specs::Totals::is_over))]
pub fn actions_done(best: Total, a: u16, last: u16) -> bool
    ensures { result ≡ or (is_over (total_of best)) (ltb last a) }
{
    matches!(best, Total::Over) || last < a
}
