// The value and the action at a state, from a model and lent tables.
#![tactic(auto)]

ghost use Rattle.std.specs.Prelude.{◌≡◌};
ghost use Rattle.theory.specs.Value.{value_of};
ghost use Rattle.value_walk.specs.State.{asked};
ghost use Rattle.value_walk.specs.Out.{out};

use value_walk::reading::{refused, value_after};
use value_walk::{Asked, Value};

// "Order: 10, 9, the model by offset, .. then 16, 13, 15, 14": the value and the action of a state, with some steps left.
pub fn value(bytes: &[u8], nodes: &[i64], stages: &[u32], steps: u32, q: Asked) -> Value
    ensures { out result ≡ value_of bytes.now nodes.now stages.now steps (asked q) }
{
    let early = model::early(bytes, steps, stages.len());
    if early.number != 0 {
        return refused(early.number, early.place);
    }
    let site = model::site(bytes);
    let root = stages[(steps - 1) as usize];
    value_after(
        site.levels as u32,
        site.conditions as u32,
        site.actions as u32,
        nodes,
        root,
        q,
    )
}
