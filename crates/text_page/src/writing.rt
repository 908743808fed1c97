// The lines of a page, stage by stage.
ghost use Rattle.std.specs.Prelude.{◌≡◌, ℕ, ◌+◌, ◌*◌, ◌^◌, ◌≤◌, ◌<◌, length};
ghost use Rattle.whole.specs.Int.{up};
ghost use Rattle.whole.specs.Numerator.{number};
ghost use Rattle.theory.specs.Widths.{steps_most};
ghost use Rattle.model_progress.specs.GivenFlags.{site_as};
ghost use Rattle.value_walk.specs.State.{asked};
ghost use Rattle.text_decimal.specs.Put.{PutAt};
ghost use Rattle.whole_division.specs.Floor.{floor_by};
ghost use Rattle.whole_division.specs.Words.{whole_as};
ghost use Rattle.text_page_lines.specs.Page.{line_at, page_text};
ghost use Rattle.text_page.specs.Stages.{Shown};

use model_progress::Site;
use text_page_lines::lines::put_line;
use value_walk::Asked;
use value_walk::reading::value_after;
use whole::{COEFFICIENTS, Numerator};
use whole_division::{Whole, whole_part};

// The whole part of a value with h steps left: numerator ÷ (D × W^(n×h)), rounded downward.
fn part(site: Site, d: i32, h: u32, x: Numerator) -> Whole
    requires { (0 < site.weights) × (0 < up d) × (h ≤ steps_most) }
    ensures { whole_as result ≡ floor_by (number x) (up d * site.weights ^ (site.conditions * h)) }
{
    whole_part(
        x,
        d as u32,
        site.weights as u32,
        (site.conditions as u32) * h,
    )
}

// The line of stage h, at the front of a lent part of the buffer.
fn write_line(
    text: &mut [u8],
    model: &[u8],
    site: Site,
    h: u32,
    nodes: &[i64],
    stages: &[u32],
    q: Asked,
) -> usize
    requires { Shown model.now (site_as site) nodes.now stages.now (asked q) h × (length (line_at model.now nodes.now stages.now (asked q) h) ≤ length text.old) }
    ensures { PutAt text.old 0 (line_at model.now nodes.now stages.now (asked q) h) result text.new }
{
    let root = stages[(h - 1) as usize];
    let v = value_after(
        site.levels as u32,
        site.conditions as u32,
        site.actions as u32,
        nodes,
        root,
        q,
    );
    let x = part(site, q.n[COEFFICIENTS], h, v.numerator);
    put_line(text, 0, h, v.action, x, model_names::name(model, v.action))
}

// The lines of stages 1 to the horizon, from a place on.
pub(crate) fn write_lines(
    text: &mut [u8],
    place: usize,
    model: &[u8],
    site: Site,
    horizon: u32,
    nodes: &[i64],
    stages: &[u32],
    q: Asked,
) -> usize
    requires { ((h : ℕ) → 1 ≤ h → h ≤ horizon → Shown model.now (site_as site) nodes.now stages.now (asked q) h) × (place + length (page_text model.now horizon nodes.now stages.now (asked q)) ≤ length text.old) }
    ensures { PutAt text.old place (page_text model.now horizon nodes.now stages.now (asked q)) result text.new }
{
    let mut next = place;
    for h in 0..horizon {
        next += write_line(&mut text[next..], model, site, h + 1, nodes, stages, q);
    }
    next
}
