// Both actions and the total of two sites with the rest of the answer as bytes, as a host in C asks for it.
#![tactic(auto)]

ghost use Rattle.std.specs.Prelude.{◌≡◌, [], ◌∷◌, ◌≤◌, length};
ghost use Rattle.text_decimal.specs.Put.{PutAt};
ghost use Rattle.value_walk.specs.State.{asked_by};
ghost use Rattle.value_joined.specs.Total.{total_of};
ghost use Rattle.value_total.specs.Out.{total_out};
ghost use Rattle.c_answers.specs.Answers.{answered};
ghost use Rattle.c_total.specs.Answer.{total_bytes, total_answer};

use c_answers::{put_le, put_pair, short};
use c_value_answers::put_words;
use value_total::{Both, Joined};
use value_walk::Asked;

// The answer: place, both actions, low word, high word.
const ANSWER_BYTES: usize = 28;

fn put_total(out: &mut [u8], t: Joined) -> usize
    requires { 28 ≤ length out.old }
    ensures { PutAt out.old 0 (total_bytes (total_out t)) result out.new }
{
    let n = put_pair(out, t.place, t.first as usize);
    let m = put_le(out, n, t.second as u64, 4);
    put_words(out, m, t.numerator.low, t.numerator.high)
}

// A total's number, and its bytes where they fit.
fn give(out: &mut [u8], t: Joined) -> u32
    ensures { answered result out.new ≡ total_answer (total_out t) out.old }
{
    if out.len() < ANSWER_BYTES {
        return short(t.number);
    }
    put_total(out, t);
    t.number
}

// Each side's model, tables and state; the steps that both have left.
pub fn total(
    bytes: &[u8],
    nodes: &[i64],
    stages: &[u32],
    mask: u32,
    l1: i32,
    l2: i32,
    l3: i32,
    l4: i32,
    l5: i32,
    l6: i32,
    l7: i32,
    l8: i32,
    d: i32,
    bytes2: &[u8],
    nodes2: &[i64],
    stages2: &[u32],
    mask2: u32,
    k1: i32,
    k2: i32,
    k3: i32,
    k4: i32,
    k5: i32,
    k6: i32,
    k7: i32,
    k8: i32,
    e: i32,
    steps: u32,
    out: &mut [u8],
) -> u32
    ensures { answered result out.new
        ≡ total_answer (total_of bytes.now nodes.now stages.now (asked_by mask (l1 ∷ l2 ∷ l3 ∷ l4 ∷ l5 ∷ l6 ∷ l7 ∷ l8 ∷ d ∷ []))
        bytes2.now nodes2.now stages2.now (asked_by mask2 (k1 ∷ k2 ∷ k3 ∷ k4 ∷ k5 ∷ k6 ∷ k7 ∷ k8 ∷ e ∷ [])) steps) out.old }
{
    let first = Asked {
        mask: mask,
        n: [l1, l2, l3, l4, l5, l6, l7, l8, d],
    };
    let second = Asked {
        mask: mask2,
        n: [k1, k2, k3, k4, k5, k6, k7, k8, e],
    };
    let q = Both {
        steps: steps,
        first: first,
        second: second,
    };
    give(
        out,
        value_total::total(bytes, nodes, stages, bytes2, nodes2, stages2, q),
    )
}
