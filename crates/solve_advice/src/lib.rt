// Solving and then reading in the same lent tables: the demands as the contract of running code.
#![tactic(auto)]

ghost use Rattle.value_walk.specs.Out.{out};
ghost use Rattle.value_walk.specs.State.{asked};
ghost use Rattle.theorems.specs.Advice.{Advises};

use value_walk::{Asked, Value};
use whole::Numerator;

// The value and the action at a state with some steps left, of a model solved for a horizon; a refusal of either call.
pub fn advise(
    model: &[u8],
    horizon: u32,
    nodes: &mut [i64],
    stages: &mut [u32],
    work: &mut [u32],
    peaks: &mut [u32],
    steps: u32,
    q: Asked,
) -> Value
    ensures { Advises model.now horizon nodes.old stages.old work.old peaks.old steps (asked q) nodes.new stages.new work.new peaks.new (out result) }
{
    let s = solve_tables::solve(model, horizon, nodes, stages, work, peaks);
    if s.number != 0 {
        return Value {
            number: s.number,
            place: s.place,
            action: 0,
            numerator: Numerator { low: 0, high: 0 },
        };
    }
    value_read::value(model, nodes, stages, steps, q)
}
