// Whether the plan's action is sure, with the rest of its answer as bytes, as a host in C asks for it.
#![tactic(auto)]

ghost use Rattle.std.specs.Prelude.{◌≡◌, [], ◌∷◌};
ghost use Rattle.value_walk.specs.State.{asked_by};
ghost use Rattle.c_answers.specs.Answers.{answered};
ghost use Rattle.price_change.specs.Sure.{sure_of};
ghost use Rattle.price_sure.specs.Answers.{out as said-out};
ghost use Rattle.c_sure.specs.Answer.{sure_answer};

use c_answers::{put_pair, short};
use price_sure::Said;

// The answer: place of a refusal, sure.
const ANSWER_BYTES: usize = 8;

// Its number, and its bytes where they fit.
fn answer(out: &mut [u8], v: Said) -> u32
    ensures { answered result out.new ≡ sure_answer (said-out v) out.old }
{
    if out.len() < ANSWER_BYTES {
        return short(v.number);
    }
    put_pair(out, v.place, v.sure as usize);
    v.number
}

// Answer, 8 bytes: place, sure.
pub fn sure(
    bytes: &[u8],
    steps: u32,
    mask: u32,
    l1: i32,
    l2: i32,
    l3: i32,
    l4: i32,
    l5: i32,
    l6: i32,
    l7: i32,
    l8: i32,
    d: i32,
    e: i32,
    out: &mut [u8],
) -> u32
    ensures { answered result out.new ≡ sure_answer (sure_of bytes.now steps (asked_by mask (l1 ∷ l2 ∷ l3 ∷ l4 ∷ l5 ∷ l6 ∷ l7 ∷ l8 ∷ d ∷ [])) e) out.old }
{
    let q = value_walk::Asked {
        mask,
        n: [l1, l2, l3, l4, l5, l6, l7, l8, d],
    };
    answer(out, price_sure::sure(bytes, steps, q, e))
}
