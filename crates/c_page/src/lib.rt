// A page with the rest of its answer as bytes, as a host in C asks for it.
#![tactic(auto)]

ghost use Rattle.std.specs.Prelude.{◌≡◌, [], ◌∷◌};
ghost use Rattle.value_walk.specs.State.{asked_by};
ghost use Rattle.text_page_lines.specs.Page.{page as page-of};
ghost use Rattle.c_answers.specs.Texts.{listed, listing_answer};

// Answer, 8 bytes: place of a refusal, length written to `text` from `place` on.
// Where `out` has no room for it the page is judged with an empty text, so that nothing is written.
pub fn page(
    bytes: &[u8],
    horizon: u32,
    nodes: &[i64],
    stages: &[u32],
    mask: u32,
    l1: i32,
    l2: i32,
    l3: i32,
    l4: i32,
    l5: i32,
    l6: i32,
    l7: i32,
    l8: i32,
    d: i32,
    text: &mut [u8],
    place: usize,
    out: &mut [u8],
) -> u32
    ensures { listed result out.new text.new ≡ listing_answer (page-of bytes.now horizon nodes.now stages.now (asked_by mask (l1 ∷ l2 ∷ l3 ∷ l4 ∷ l5 ∷ l6 ∷ l7 ∷ l8 ∷ d ∷ [])) text.old place) text.old out.old }
{
    let q = value_walk::Asked {
        mask,
        n: [l1, l2, l3, l4, l5, l6, l7, l8, d],
    };
    if out.len() < 8 {
        let v = text_page::page(bytes, horizon, nodes, stages, q, &mut text[..0], place);
        return c_answers::short(v.number);
    }
    let v = text_page::page(bytes, horizon, nodes, stages, q, text, place);
    c_answers::put_pair(out, v.place, v.size);
    v.number
}
