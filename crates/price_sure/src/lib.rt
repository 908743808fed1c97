// Whether the plan's action at a state is sure, worked from the model's bytes as plain working is.
#![tactic(auto)]

ghost use Rattle.std.specs.Prelude.{◌≡◌, ◌*◌, ◌≤◌, nat_abs};
ghost use Rattle.plain_pass.specs.Parts.{NoNotes, Parts};
ghost use Rattle.plain_limits.specs.Totals.{total_of};
ghost use Rattle.plain_step.specs.PointState.{StandingPoint};
ghost use Rattle.value_walk.specs.State.{asked};
ghost use Rattle.price_change.specs.Sure.{sure_of, refused_sure, said as said_of};
ghost use Rattle.price_sure.specs.Answers.{out, answer_of, OverDen, Priced, SureAt};

use plain_limits::Total;
use plain_pass::Point;
use plain_step::sites;
use plain_worth::worths;
use value_walk::Asked;
use whole::COEFFICIENTS;
use whole::limits::{mag, power_within};

// "It refuses e below zero with 23, after 13"
const NEGATIVE_CHANGE: u32 = 23;

// sure is 1 or 0.
#[derive(Clone, Copy)]
pub struct Said {
    pub number: u32,
    pub place: usize,
    pub sure: u32,
}

fn refused(number: u32, place: usize) -> Said
    ensures { out result ≡ refused_sure number place }
{
    Said {
        number,
        place,
        sure: 0,
    }
}

fn answered(yes: bool) -> Said
    ensures { out result ≡ said_of yes }
{
    Said {
        number: 0,
        place: 0,
        sure: u32::from(yes),
    }
}

// The best worth against the largest of the others: the rest cannot come nearer.
fn answer(best: Total, other: Total, h: u64, e: u64, d: u64, p: u64) -> Said
    requires { (1 ≤ h) × (h ≤ 8) × (1 ≤ d) }
    ensures { out result ≡ answer_of (2 * h * e * (d * p)) (total_of best) (total_of other) }
{
    match best {
        Total::Is(v, _) => answered(price_margin::exceeds(v, other, h, e, d, p)),
        Total::None => answered(false),
        Total::Over => refused(11, 0),
    }
}

// One pass over the actions keeps the best and the largest of the others.
fn contest(model: &[u8], parts: &[u32], steps: u32, x: Point, e: u64, d: u64, p: u64) -> Said
    requires { StandingPoint model.now x × (1 ≤ steps) × (steps ≤ 8) × Parts model.now parts.now × Priced model.now steps x d p }
    ensures { SureAt model.now steps e x result }
{
    let last = sites::actions(model);
    let mut best = plain_limits::numbered(1, worths::action_worth(model, parts, steps, 1, x));
    let mut other = Total::None;
    let mut a: u16 = 2;
    loop {
        if plain_limits::actions_done(best, a, last) {
            return answer(best, other, steps as u64, e, d, p);
        }
        let t = worths::action_worth(model, parts, steps, a, x);
        other = price_margin::rival(best, other, t);
        best = plain_limits::better(best, a, t);
        a += 1;
    }
}

// The same, where the diagrams begin noted first, in the words that are lent for it.
fn noted(model: &[u8], parts: &mut [u32], steps: u32, x: Point, e: u64, d: u64, p: u64) -> Said
    requires { StandingPoint model.now x × (1 ≤ steps) × (steps ≤ 8) × NoNotes parts.old × Priced model.now steps x d p }
    ensures { SureAt model.now steps e x result }
{
    plain_parts::find(model, parts);
    contest(model, parts, steps, x, e, d, p)
}

// The same; words for all actions are cleared only where a model has many.
fn roomed(model: &[u8], steps: u32, x: Point, e: u64, d: u64, p: u64) -> Said
    requires { StandingPoint model.now x × (1 ≤ steps) × (steps ≤ 8) × Priced model.now steps x d p }
    ensures { SureAt model.now steps e x result }
{
    if sites::actions(model) as usize <= plain_parts::FEW_ACTIONS {
        let mut few = [0u32; plain_parts::FEW_SLOTS];
        return noted(model, &mut few, steps, x, e, d, p);
    }
    let mut all = [0u32; plain_parts::SLOTS];
    noted(model, &mut all, steps, x, e, d, p)
}

// The state x, whose denominator is d: plain working judges W^(n×h) first.
fn worked(model: &[u8], steps: u32, x: Point, e: u64, d: u64) -> Said
    requires { StandingPoint model.now x × (1 ≤ steps) × (steps ≤ 8) × OverDen model.now x d }
    ensures { SureAt model.now steps e x result }
{
    let n = sites::conditions(model) as u32;
    let Some(p) = power_within(sites::weights(model) as u32, n * steps) else {
        return refused(11, 0);
    };
    roomed(model, steps, x, e, d, mag(p))
}

fn size(z: i32) -> u64
    ensures { result ≡ nat_abs z }
{
    u64::from(z.unsigned_abs())
}

// The denominator of a state, which is not negative where it is accepted.
fn denominator(q: Asked) -> u64
    ensures { result ≡ nat_abs (asked q).den }
{
    size(q.n[COEFFICIENTS])
}

// "Order: 10, 9, the model, 13, 23; then 11 as plain working gives it": whether the plan's action at the state stays best where rewards move by at most e.
pub fn sure(bytes: &[u8], steps: u32, q: Asked, e: i32) -> Said
    ensures { out result ≡ sure_of bytes.now steps (asked q) e }
{
    let early = model::early(bytes, steps, 8);
    if early.number != 0 {
        return refused(early.number, early.place);
    }
    let m = sites::levels(bytes) as u32;
    let n = sites::conditions(bytes) as u32;
    if !value_walk::states::accepted(m, n, q) {
        return refused(13, 0);
    }
    if e < 0 {
        return refused(NEGATIVE_CHANGE, 0);
    }
    worked(
        bytes,
        steps,
        plain_worth::point(m, q),
        size(e),
        denominator(q),
    )
}
