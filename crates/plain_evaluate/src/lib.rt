// What the slots of an accepted model come to at a state: rewards, next levels, the end worth, chances.
#![tactic(auto)]

ghost use Rattle.std.specs.Prelude.{◌≡◌, List, Bool, true, ◌+◌, ◌<◌, T, length};
ghost use Rattle.whole.specs.Int.{up};
ghost use Rattle.whole.specs.Linears.{numbers};
ghost use Rattle.whole.specs.Numerator.{words};
ghost use Rattle.theory.specs.Command.{read_at};
ghost use Rattle.theory.specs.Meaning.{State, env};
ghost use Rattle.theory.specs.Diagram.{lin_of};
ghost use Rattle.theory.specs.Meaning.{worth_at as worth_of};
ghost use Rattle.theory.specs.Meaning.{level_at as level_of};
ghost use Rattle.theory.specs.Meaning.{end_at as end_of};
ghost use Rattle.theory.specs.Meaning.{chance_at as chance-of};
ghost use Rattle.theory.specs.Load.{find_slot, found, site_at};
ghost use Rattle.theory.specs.Verdict.{verdict, end_slot};
ghost use Rattle.theory.specs.Load.{loaded_entries};
ghost use Rattle.plain_pass.specs.Pass.{slot_of, no_name, FlatPoint, leaf_of, reward_of, StateStands, LeafComes};
ghost use Rattle.plain_pass.specs.Pass.{numerator as numerator-at};
ghost use Rattle.plain_pass.specs.Parts.{Parts};

use plain_leaf::{code, code_end, leaf_at, numerators};
use plain_pass::{Point, Slot};
use whole::{COEFFICIENTS, Numerator};

// The linear of the leaf at an offset, at a point, times d; 0 where there is none.
fn leaf_numerator(model: &[u8], at: usize, x: &Point) -> Numerator
    requires { FlatPoint x.now }
    ensures { result ≡ words (numerator-at x.now (lin_of (leaf_of (read_at model.now at)))) }
{
    if code(model, at, code_end(model)) == 0x10 {
        numerators::numerator_at(model, at + 1, x)
    } else {
        Numerator { low: 0, high: 0 }
    }
}

// The constant of the leaf at an offset; 0 where there is none.
fn leaf_constant(model: &[u8], at: usize) -> i64
    ensures { result ≡ (lin_of (leaf_of (read_at model.now at))).const }
{
    if code(model, at, code_end(model)) == 0x10 {
        numerators::number(model, at + 1 + COEFFICIENTS * 4)
    } else {
        0
    }
}

// The offset of the leaf that a slot's diagram comes to.
fn found_at(model: &[u8], parts: &[u32], g: Slot, x: &Point) -> usize
    requires { ((verdict model.now).number ≡ 0) × (length model.now < 4294967296) × T (no_name (slot_of g)) × Parts model.now parts.now × FlatPoint x.now }
    ensures { LeafComes model.now (slot_of g) x.now result }
{
    leaf_at(model, plain_parts::begin(parts, g), g, x)
}

// What a reward comes to, times d; none where it is forbidden.
pub fn reward_at(model: &[u8], parts: &[u32], g: Slot, x: Point) -> Option<Numerator>
    requires { ((verdict model.now).number ≡ 0) × (length model.now < 4294967296) × T (no_name (slot_of g)) × Parts model.now parts.now × FlatPoint x }
    ensures { (s : State) (z : List Bool) → StateStands (site_at model.now).levels (site_at model.now).conditions x s z
        → result ≡ reward_of (worth_of (env s z) (find_slot (slot_of g) (loaded_entries model.now))) }
{
    let at = found_at(model, parts, g, &x);
    if model_command::byte_at(model, at) == 0x13 {
        return None;
    }
    Some(leaf_numerator(model, at, &x))
}

// What a next level or an end worth comes to, times d.
pub fn level_at(model: &[u8], parts: &[u32], g: Slot, x: Point) -> Numerator
    requires { ((verdict model.now).number ≡ 0) × (length model.now < 4294967296) × T (no_name (slot_of g)) × Parts model.now parts.now × FlatPoint x }
    ensures { (s : State) (z : List Bool) → StateStands (site_at model.now).levels (site_at model.now).conditions x s z
        → result ≡ words (level_of (env s z) (find_slot (slot_of g) (loaded_entries model.now))) }
{
    leaf_numerator(model, found_at(model, parts, g, &x), &x)
}

// What the end worth comes to, times d; 0 where none is given.
pub fn end_at(model: &[u8], parts: &[u32], x: Point) -> Numerator
    requires { ((verdict model.now).number ≡ 0) × (length model.now < 4294967296) × Parts model.now parts.now × FlatPoint x }
    ensures { (s : State) (z : List Bool) → StateStands (site_at model.now).levels (site_at model.now).conditions x s z
        → result ≡ words (end_of (env s z) (found end_slot (loaded_entries model.now))) }
{
    let g = Slot {
        command: 0x23,
        action: 0,
        index: 0,
    };
    let begin = plain_parts::begin(parts, g);
    if begin == 0 {
        return Numerator { low: 0, high: 0 };
    }
    leaf_numerator(model, leaf_at(model, begin, g, &x), &x)
}

// The weight, out of W, that a slot's diagram comes to.
pub fn chance_at(model: &[u8], parts: &[u32], g: Slot, x: Point) -> u64
    requires { ((verdict model.now).number ≡ 0) × (length model.now < 4294967296) × T (no_name (slot_of g)) × Parts model.now parts.now × FlatPoint x }
    ensures { (s : State) (z : List Bool) → StateStands (site_at model.now).levels (site_at model.now).conditions x s z
        → result ≡ chance-of (env s z) (find_slot (slot_of g) (loaded_entries model.now)) }
{
    weight(leaf_constant(model, found_at(model, parts, g, &x)))
}

// A number below 0 counts as 0; an accepted model has none.
fn weight(z: i64) -> u64
    ensures { result ≡ up z }
{
    if z < 0 { 0 } else { z.unsigned_abs() }
}
