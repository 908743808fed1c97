// Exports that write a name or a listing.
ghost use Rattle.std.specs.Prelude.{◌≡◌};
ghost use Rattle.theory.specs.Listing.{listing as listing-of};
ghost use Rattle.c_answers.specs.Answers.{answered};
ghost use Rattle.c_answers.specs.Texts.{listed, listing_answer};
ghost use Rattle.c_name_answers.specs.Names.{name_answer};

// Answer, 24 bytes: place, length, the name, zeros up to 16.
#[unsafe(no_mangle)]
pub extern "C" fn planner_name(bytes: &[u8], action: u32, out: &mut [u8]) -> u32
    ensures { answered result out.new ≡ name_answer bytes.now action out.old }
{
    let v = model_names::name_refusal(bytes, action);
    if out.len() < 24 {
        return c_answers::short(v.number);
    }
    c_name_answers::names::put_name(out, v.place, model_names::name(bytes, action));
    v.number
}

// Answer, 8 bytes: place of a refusal, length written to `text` from `place` on.
// Where `out` has no room for it the plan is judged with an empty text, so that nothing is written.
#[unsafe(no_mangle)]
pub extern "C" fn planner_listing(
    bytes: &[u8],
    horizon: u32,
    nodes: &[i64],
    stages: &[u32],
    text: &mut [u8],
    place: usize,
    out: &mut [u8],
) -> u32
    ensures { listed result out.new text.new ≡ listing_answer (listing-of bytes.now horizon nodes.now stages.now text.old place) text.old out.old }
{
    if out.len() < 8 {
        let v = text_listing::listing(bytes, horizon, nodes, stages, &mut text[..0], place);
        return c_answers::short(v.number);
    }
    let v = text_listing::listing(bytes, horizon, nodes, stages, text, place);
    c_answers::put_pair(out, v.place, v.size);
    v.number
}
