// The listing of a plan, written into a lent buffer from any place of it.
#![tactic(auto)]

ghost use Rattle.std.specs.Prelude.{◌≡◌, ◌≤◌, length};
ghost use Rattle.theory.specs.Widths.{steps_most};
ghost use Rattle.theory.specs.Listing.{listing as listing-of};
ghost use Rattle.model_progress.specs.GivenFlags.{site_as};
ghost use Rattle.text_listing.specs.Refusal.{plan_listing};
ghost use Rattle.text_listing.specs.Answer.{outcome, refused_as, written_as};

use model::early;
use model_progress::Site;

pub mod judging; // judging.rt: whether a plan can be listed

// A refusal's number and place, both 0 where there is none; then how many bytes were written. No Result: `ListingOut` and the answer of C have all three.
#[derive(Clone, Copy)]
pub struct Listed {
    pub number: u32,
    pub place: usize,
    pub size: usize,
}

impl Listed {
    pub fn refused(number: u32, place: usize) -> Listed
        ensures { result ≡ refused_as number place }
    {
        Listed {
            number,
            place,
            size: 0,
        }
    }

    // Nothing is refused.
    pub fn written(size: usize) -> Listed
        ensures { result ≡ written_as size }
    {
        Listed {
            number: 0,
            place: 0,
            size,
        }
    }
}

// A plan of an accepted model. That the whole text fits is known before a byte is written.
fn list_plan(
    site: Site,
    horizon: u32,
    nodes: &[i64],
    stages: &[u32],
    text: &mut [u8],
    place: usize,
) -> Listed
    requires { (horizon ≤ length stages.now) × (horizon ≤ steps_most) }
    ensures { outcome result text.new ≡ plan_listing (site_as site) horizon nodes.now stages.now text.old place }
{
    let number = judging::plan_refusal(site, horizon, nodes, stages);
    if number != 0 {
        return Listed::refused(number, 0);
    }
    if text.len() < place {
        return Listed::refused(17, 0);
    }
    let room = text.len() - place;
    let root = judging::greatest_root(stages, horizon as usize) as usize;
    let size = text_plan::texts::text_len(site, horizon, nodes, stages, root, room);
    if room < size {
        return Listed::refused(17, 0);
    }
    text_plan::texts::write_text(text, place, site, horizon, nodes, stages, root);
    Listed::written(size)
}

// The listing of the plan that lent tables hold, from a place of a lent buffer on.
pub fn listing(
    model: &[u8],
    horizon: u32,
    nodes: &[i64],
    stages: &[u32],
    text: &mut [u8],
    place: usize,
) -> Listed
    ensures { outcome result text.new ≡ listing-of model.now horizon nodes.now stages.now text.old place }
{
    let v = early(model, horizon, stages.len());
    if v.number != 0 {
        return Listed::refused(v.number, v.place);
    }
    list_plan(model::site(model), horizon, nodes, stages, text, place)
}
