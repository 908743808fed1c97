// The export that gives both actions and the total of two sites.
ghost use Rattle.std.specs.Prelude.{◌≡◌, [], ◌∷◌};
ghost use Rattle.value_walk.specs.State.{asked_by};
ghost use Rattle.value_joined.specs.Total.{total_of};
ghost use Rattle.c_answers.specs.Answers.{answered};
ghost use Rattle.c_total.specs.Answer.{total_answer};

// Answer, 28 bytes: place, the first's action, the second's, low word, high word.
#[unsafe(no_mangle)]
pub extern "C" fn planner_total(
    bytes: &[u8],
    nodes: &[i64],
    stages: &[u32],
    mask: u32,
    l1: i32,
    l2: i32,
    l3: i32,
    l4: i32,
    l5: i32,
    l6: i32,
    l7: i32,
    l8: i32,
    d: i32,
    bytes2: &[u8],
    nodes2: &[i64],
    stages2: &[u32],
    mask2: u32,
    k1: i32,
    k2: i32,
    k3: i32,
    k4: i32,
    k5: i32,
    k6: i32,
    k7: i32,
    k8: i32,
    e: i32,
    steps: u32,
    out: &mut [u8],
) -> u32
    ensures { answered result out.new
        ≡ total_answer (total_of bytes.now nodes.now stages.now (asked_by mask (l1 ∷ l2 ∷ l3 ∷ l4 ∷ l5 ∷ l6 ∷ l7 ∷ l8 ∷ d ∷ []))
        bytes2.now nodes2.now stages2.now (asked_by mask2 (k1 ∷ k2 ∷ k3 ∷ k4 ∷ k5 ∷ k6 ∷ k7 ∷ k8 ∷ e ∷ [])) steps) out.old }
{
    c_total::total(
        bytes, nodes, stages, mask, l1, l2, l3, l4, l5, l6, l7, l8, d, bytes2, nodes2, stages2,
        mask2, k1, k2, k3, k4, k5, k6, k7, k8, e, steps, out,
    )
}
