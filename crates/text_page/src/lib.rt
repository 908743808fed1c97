// A page: for one state a line per stage, written into a lent buffer from any place of it.
#![tactic(auto)]

ghost use Rattle.std.specs.Prelude.{◌≡◌, length};
ghost use Rattle.theory.specs.Load.{site_at};
ghost use Rattle.theory.specs.Solve.{early as early-of};
ghost use Rattle.model_progress.specs.GivenFlags.{site_as};
ghost use Rattle.value_walk.specs.State.{asked};
ghost use Rattle.text_listing.specs.Answer.{outcome};
ghost use Rattle.text_page_lines.specs.Page.{page as page-of};

use model::early;
use model_progress::Site;
use text_listing::Listed;
use value_walk::Asked;

mod judging; // judging.rt: whether every stage can be read
mod writing; // writing.rt: the lines

// The bytes of a line.
const LINE: usize = 51;

// A page of an accepted model. That the whole page fits is known before a byte is written.
fn page_of(
    model: &[u8],
    site: Site,
    horizon: u32,
    nodes: &[i64],
    stages: &[u32],
    q: Asked,
    text: &mut [u8],
    place: usize,
) -> Listed
    requires { ((early-of model.now horizon (length stages.now)).number ≡ 0) × (site_as site ≡ site_at model.now) }
    ensures { outcome result text.new ≡ page-of model.now horizon nodes.now stages.now (asked q) text.old place }
{
    let number = judging::refusal(site, horizon, nodes, stages, q);
    if number != 0 {
        return Listed::refused(number, 0);
    }
    if text.len() < place {
        return Listed::refused(17, 0);
    }
    let size = LINE * (horizon as usize);
    if text.len() - place < size {
        return Listed::refused(17, 0);
    }
    writing::write_lines(text, place, model, site, horizon, nodes, stages, q);
    Listed::written(size)
}

// "Order: 10, 9, the model by offset, .. 13, 15, 14, 17": the page of the plan that lent tables hold, from a place of a lent buffer on.
pub fn page(
    model: &[u8],
    horizon: u32,
    nodes: &[i64],
    stages: &[u32],
    q: Asked,
    text: &mut [u8],
    place: usize,
) -> Listed
    ensures { outcome result text.new ≡ page-of model.now horizon nodes.now stages.now (asked q) text.old place }
{
    let v = early(model, horizon, stages.len());
    if v.number != 0 {
        return Listed::refused(v.number, v.place);
    }
    page_of(
        model,
        model::site(model),
        horizon,
        nodes,
        stages,
        q,
        text,
        place,
    )
}
