// Plain working: the worth of a state, worked from the model's bytes without diagrams or tables.
#![tactic(auto)]

ghost use Rattle.std.specs.Prelude.{◌≡◌};
ghost use Rattle.theory.specs.Value.{refused_value};
ghost use Rattle.theory.specs.Plain.{plain_of, worth_out};
ghost use Rattle.value_walk.specs.Out.{out};
ghost use Rattle.value_walk.specs.State.{asked};
ghost use Rattle.plain_limits.specs.Totals.{total_of};
ghost use Rattle.plain_worth.specs.Worths.{point_of};

use plain_limits::Total;
use plain_pass::Point;
use plain_step::sites;
use value_walk::{Asked, Value};
use whole::Numerator;
use whole::two_words::from_word;

pub mod worths; // worths.rt: the worth of a state and of an action

// A number leaves its limits.
const TOO_LARGE: u32 = 11;

// The state asked for is none of the model.
const NO_STATE: u32 = 13;

fn refused(number: u32, place: usize) -> Value
    ensures { out result ≡ refused_value number place }
{
    Value {
        number,
        place,
        action: 0,
        numerator: Numerator { low: 0, high: 0 },
    }
}

fn answered(a: u16, numerator: Numerator) -> Value
    ensures { out result ≡ record { number = 0; place = 0; action = a; numerator = numerator } }
{
    Value {
        number: 0,
        place: 0,
        action: a as u32,
        numerator,
    }
}

// The answer, which reads as 0 where it is none, or 11 at place 0.
fn answer(t: Total) -> Value
    ensures { out result ≡ worth_out (total_of t) }
{
    match t {
        Total::Is(z, a) => answered(a, from_word(z)),
        Total::None => answered(0, Numerator { low: 0, high: 0 }),
        Total::Over => refused(TOO_LARGE, 0),
    }
}

// The state of m levels that is asked for, with no setting.
pub fn point(m: u32, q: Asked) -> Point
    ensures { result ≡ point_of m q }
{
    let n = q.n;
    Point {
        mask: q.mask,
        setting: 0,
        n,
        levels: m as usize,
    }
}

// "Order: 10, 9, the model by offset, .. 13, .. last 11": the worth of a state with some steps left, and the action that has it.
pub fn worth(bytes: &[u8], steps: u32, q: Asked) -> Value
    ensures { out result ≡ plain_of bytes.now steps (asked q) }
{
    let early = model::early(bytes, steps, 8);
    if early.number != 0 {
        return refused(early.number, early.place);
    }
    let m = u32::from(sites::levels(bytes));
    let n = u32::from(sites::conditions(bytes));
    if !value_walk::states::accepted(m, n, q) {
        return refused(NO_STATE, 0);
    }
    answer(worths::worked(bytes, steps, point(m, q)))
}
