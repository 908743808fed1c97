// "Two valleys, one total": both actions and the total of two sites that share nothing, from their models and lent tables.
#![tactic(auto)]

ghost use Rattle.std.specs.Prelude.{◌≡◌, ◌≤◌, ◌<◌};
ghost use Rattle.theory.specs.Widths.{steps_most};
ghost use Rattle.model_progress.specs.GivenFlags.{site_as};
ghost use Rattle.value_walk.specs.State.{asked};
ghost use Rattle.value_walk.specs.Out.{out};
ghost use Rattle.value_joined.specs.Total.{refused_total, both_read, same_scale, total_of};
ghost use Rattle.value_total.specs.Out.{total_out};

use model_progress::Site;
use value_walk::{Asked, Value};
use whole::{COEFFICIENTS, Numerator};

// Unequal W or D.
pub const SCALES: u32 = 26;

// A numerator outside two words.
const OUTSIDE: u32 = 11;

// The states that are asked, one of each site, and the steps that both have left.
#[derive(Clone, Copy)]
pub struct Both {
    pub steps: u32,
    pub first: Asked,
    pub second: Asked,
}

// A refusal's number and place, both 0 where there is none; then the actions and the numerator.
#[derive(Clone, Copy)]
pub struct Joined {
    pub number: u32,
    pub place: usize,
    pub first: u32,
    pub second: u32,
    pub numerator: Numerator,
}

fn refused(number: u32, place: usize) -> Joined
    ensures { total_out result ≡ refused_total number place }
{
    Joined {
        number,
        place,
        first: 0,
        second: 0,
        numerator: Numerator { low: 0, high: 0 },
    }
}

// Whether both are over one W and one D.
fn same_scale(s: Site, r: Site, q: Asked, p: Asked) -> bool
    ensures { result ≡ same_scale (site_as s) (site_as r) (asked q) (asked p) }
{
    s.weights == r.weights && q.n[COEFFICIENTS] == p.n[COEFFICIENTS]
}

// Two values that were read. None is a value's only action 0.
fn both_read(s: Site, r: Site, steps: u32, v: Value, w: Value) -> Joined
    requires { (0 < s.weights) × (steps ≤ steps_most) }
    ensures { total_out result ≡ both_read (site_as s) (site_as r) steps (out v) (out w) }
{
    if v.action == 0 || w.action == 0 {
        return refused(0, 0);
    }
    let Some(x) = whole_wide::total(
        v.numerator,
        w.numerator,
        s.weights as u32,
        (r.conditions as u32) * steps,
        (s.conditions as u32) * steps,
    ) else {
        return refused(OUTSIDE, 0);
    };
    Joined {
        number: 0,
        place: 0,
        first: v.action,
        second: w.action,
        numerator: x,
    }
}

// "all of the first's, then the second's", 26, none, 11.
pub fn total(
    bytes: &[u8],
    nodes: &[i64],
    stages: &[u32],
    bytes2: &[u8],
    nodes2: &[i64],
    stages2: &[u32],
    q: Both,
) -> Joined
    ensures { total_out result ≡ total_of bytes.now nodes.now stages.now (asked q.first) bytes2.now nodes2.now stages2.now (asked q.second) q.steps }
{
    let v = value_read::value(bytes, nodes, stages, q.steps, q.first);
    if v.number != 0 {
        return refused(v.number, v.place);
    }
    let w = value_read::value(bytes2, nodes2, stages2, q.steps, q.second);
    if w.number != 0 {
        return refused(w.number, w.place);
    }
    let s = model::site(bytes);
    let r = model::site(bytes2);
    if !same_scale(s, r, q.first, q.second) {
        return refused(SCALES, 0);
    }
    both_read(s, r, q.steps, v, w)
}
