// The export that writes a page.
ghost use Rattle.std.specs.Prelude.{◌≡◌, [], ◌∷◌};
ghost use Rattle.value_walk.specs.State.{asked_by};
ghost use Rattle.text_page_lines.specs.Page.{page as page-of};
ghost use Rattle.c_answers.specs.Texts.{listed, listing_answer};

// Answer, 8 bytes: place of a refusal, length written to `text` from `place` on.
#[unsafe(no_mangle)]
pub extern "C" fn planner_page(
    bytes: &[u8],
    horizon: u32,
    nodes: &[i64],
    stages: &[u32],
    mask: u32,
    l1: i32,
    l2: i32,
    l3: i32,
    l4: i32,
    l5: i32,
    l6: i32,
    l7: i32,
    l8: i32,
    d: i32,
    text: &mut [u8],
    place: usize,
    out: &mut [u8],
) -> u32
    ensures { listed result out.new text.new ≡ listing_answer (page-of bytes.now horizon nodes.now stages.now (asked_by mask (l1 ∷ l2 ∷ l3 ∷ l4 ∷ l5 ∷ l6 ∷ l7 ∷ l8 ∷ d ∷ [])) text.old place) text.old out.old }
{
    c_page::page(
        bytes, horizon, nodes, stages, mask, l1, l2, l3, l4, l5, l6, l7, l8, d, text, place, out,
    )
}
