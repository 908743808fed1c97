// A value read at a state, or worked plainly, with the rest of its answer as bytes, as a host in C asks for it.
#![tactic(auto)]

ghost use Rattle.std.specs.Prelude.{◌≡◌, [], ◌∷◌};
ghost use Rattle.theory.specs.Value.{value_of};
ghost use Rattle.theory.specs.Plain.{plain_of};
ghost use Rattle.value_walk.specs.State.{asked_by};
ghost use Rattle.c_answers.specs.Answers.{answered};
ghost use Rattle.c_value_answers.specs.ValueAnswer.{value_answer};

// Answer, 24 bytes: place, action, low word, high word.
pub fn value(
    bytes: &[u8],
    nodes: &[i64],
    stages: &[u32],
    steps: u32,
    mask: u32,
    l1: i32,
    l2: i32,
    l3: i32,
    l4: i32,
    l5: i32,
    l6: i32,
    l7: i32,
    l8: i32,
    d: i32,
    out: &mut [u8],
) -> u32
    ensures { answered result out.new ≡ value_answer (value_of bytes.now nodes.now stages.now steps (asked_by mask (l1 ∷ l2 ∷ l3 ∷ l4 ∷ l5 ∷ l6 ∷ l7 ∷ l8 ∷ d ∷ []))) out.old }
{
    let q = value_walk::Asked {
        mask,
        n: [l1, l2, l3, l4, l5, l6, l7, l8, d],
    };
    c_value_answers::value(out, value_read::value(bytes, nodes, stages, steps, q))
}

// Answer, 24 bytes, as value's: plain working.
pub fn worth(
    bytes: &[u8],
    steps: u32,
    mask: u32,
    l1: i32,
    l2: i32,
    l3: i32,
    l4: i32,
    l5: i32,
    l6: i32,
    l7: i32,
    l8: i32,
    d: i32,
    out: &mut [u8],
) -> u32
    ensures { answered result out.new ≡ value_answer (plain_of bytes.now steps (asked_by mask (l1 ∷ l2 ∷ l3 ∷ l4 ∷ l5 ∷ l6 ∷ l7 ∷ l8 ∷ d ∷ []))) out.old }
{
    let q = value_walk::Asked {
        mask,
        n: [l1, l2, l3, l4, l5, l6, l7, l8, d],
    };
    c_value_answers::value(out, plain_worth::worth(bytes, steps, q))
}
