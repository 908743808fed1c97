// The value and the action at a state, with the numbers of its site and the root of a stage.
ghost use Rattle.std.specs.Prelude.{◌≡◌};
ghost use Rattle.theory.specs.Value.{refused_value, value_at};
ghost use Rattle.value_walk.specs.Step.{Ends};
ghost use Rattle.value_walk.specs.State.{asked};
ghost use Rattle.value_walk.specs.Out.{out, value_after};

use super::states::{accepted, numerator};
use super::walks::walk;
use super::{Asked, Value};
use table::HIGH;
use table_rows::words::magnitude;
use whole::Numerator;

pub fn refused(number: u32, place: usize) -> Value
    ensures { out result ≡ refused_value number place }
{
    Value {
        number,
        place,
        action: 0,
        numerator: Numerator { low: 0, high: 0 },
    }
}

// At the leaf that the walk ended at.
fn value_at(a: u32, q: Asked, nodes: &[i64], r: usize) -> Value
    requires { Ends a nodes.now r }
    ensures { out result ≡ value_at (asked q) nodes.now r }
{
    if r == 0 {
        return refused(14, 0);
    }
    Value {
        number: 0,
        place: 0,
        action: magnitude(nodes, r, HIGH) as u32,
        numerator: numerator(q, nodes, r),
    }
}

// With a site's m, n and A, from a stage's root on.
pub fn value_after(m: u32, n: u32, a: u32, nodes: &[i64], root: u32, q: Asked) -> Value
    ensures { out result ≡ value_after m n a nodes.now root (asked q) }
{
    if !accepted(m, n, q) {
        return refused(13, 0);
    }
    if root == 0 {
        return refused(15, 0);
    }
    value_at(a, q, nodes, walk(n, a, q, nodes, root as usize))
}
