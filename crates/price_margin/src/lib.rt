// Whether a worth exceeds another by more than a margin, exactly, in words of 64 bits; and the largest worth of the other actions.
#![tactic(auto)]

ghost use Rattle.std.specs.Prelude.{◌≡◌, not, ◌*◌, ◌≤◌, ltb, ◌-ℤ◌};
ghost use Rattle.whole.specs.Int.{up};
ghost use Rattle.plain_limits.specs.Totals.{total_of};
ghost use Rattle.price_change.specs.Sure.{exceeds as exceeds-of};
ghost use Rattle.price_margin.specs.Rivals.{beats as beats-of, rival as rival-of};

use plain_limits::Total;

// How far v lies above u, 0 where it does not.
fn above(v: i64, u: i64) -> u64
    ensures { result ≡ up (v -ℤ u) }
{
    if v <= u { 0 } else { v.abs_diff(u) }
}

// x is more than 2 × h × e × D × P. The product can need 128 bits; x − 1 divided by its factors, rounded down, cannot.
fn more_than(x: u64, h: u64, e: u64, d: u64, p: u64) -> bool
    requires { (1 ≤ h) × (h ≤ 8) × (1 ≤ d) }
    ensures { result ≡ ltb (2 * h * e * (d * p)) x }
{
    if x == 0 {
        return false;
    }
    e == 0 || p <= (x - 1) / (2 * h) / e / d
}

// v exceeds the worth t by more than 2 × h × e × D × P, or t is none.
pub fn exceeds(v: i64, t: Total, h: u64, e: u64, d: u64, p: u64) -> bool
    requires { (1 ≤ h) × (h ≤ 8) × (1 ≤ d) }
    ensures { result ≡ exceeds-of (2 * h * e * (d * p)) v (total_of t) }
{
    match t {
        Total::Is(u, _) => more_than(above(v, u), h, e, d, p),
        Total::None => true,
        Total::Over => false,
    }
}

// The worth t is larger than the best so far.
fn beats(t: Total, best: Total) -> bool
    ensures { result ≡ beats-of (total_of t) (total_of best) }
{
    let Total::Is(u, _) = t else {
        return false;
    };
    let Total::Is(v, _) = best else {
        return true;
    };
    v < u
}

// The largest worth of all actions but the best, after one more, whose worth is t.
pub fn rival(best: Total, other: Total, t: Total) -> Total
    ensures { total_of result ≡ rival-of (total_of best) (total_of other) (total_of t) }
{
    if beats(t, best) {
        return best;
    }
    plain_limits::better(other, 0, t)
}
