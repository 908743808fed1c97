// The export that says whether the plan's action stays best where prices move.
ghost use Rattle.std.specs.Prelude.{◌≡◌, [], ◌∷◌};
ghost use Rattle.value_walk.specs.State.{asked_by};
ghost use Rattle.c_answers.specs.Answers.{answered};
ghost use Rattle.price_change.specs.Sure.{sure_of};
ghost use Rattle.c_sure.specs.Answer.{sure_answer};

// Answer, 8 bytes: place, sure.
#[unsafe(no_mangle)]
pub extern "C" fn planner_sure(
    bytes: &[u8],
    steps: u32,
    mask: u32,
    l1: i32,
    l2: i32,
    l3: i32,
    l4: i32,
    l5: i32,
    l6: i32,
    l7: i32,
    l8: i32,
    d: i32,
    e: i32,
    out: &mut [u8],
) -> u32
    ensures { answered result out.new ≡ sure_answer (sure_of bytes.now steps (asked_by mask (l1 ∷ l2 ∷ l3 ∷ l4 ∷ l5 ∷ l6 ∷ l7 ∷ l8 ∷ d ∷ [])) e) out.old }
{
    c_sure::sure(
        bytes, steps, mask, l1, l2, l3, l4, l5, l6, l7, l8, d, e, out,
    )
}
