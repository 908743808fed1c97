// Judging the stages of a page: a number of any stage before the next number of any.
ghost use Rattle.std.specs.Prelude.{◌≡◌, not, ◌≤◌, length};
ghost use Rattle.theory.specs.Valid.{all};
ghost use Rattle.theory.specs.Verdict.{from_to};
ghost use Rattle.model_progress.specs.GivenFlags.{site_as};
ghost use Rattle.value_walk.specs.State.{asked};
ghost use Rattle.text_page.specs.Stages.{spared, stages_refusal};

use model_progress::Site;
use value_walk::Asked;
use value_walk::reading::value_after;

// No stage from 1 to the last is refused with a number.
fn all_spared(site: Site, last: usize, nodes: &[i64], stages: &[u32], q: Asked, number: u32) -> bool
    requires { last ≤ length stages.now }
    ensures { result ≡ all (spared (site_as site) nodes.now stages.now (asked q) number) (from_to 1 last) }
{
    for h in 0..last {
        let v = value_after(
            site.levels as u32,
            site.conditions as u32,
            site.actions as u32,
            nodes,
            stages[h],
            q,
        );
        if v.number == number {
            return false;
        }
    }
    true
}

// 13, 15, 14, or 0 where none applies.
pub(crate) fn refusal(site: Site, horizon: u32, nodes: &[i64], stages: &[u32], q: Asked) -> u32
    requires { horizon ≤ length stages.now }
    ensures { result ≡ stages_refusal (site_as site) horizon nodes.now stages.now (asked q) }
{
    let last = horizon as usize;
    if !all_spared(site, last, nodes, stages, q, 13) {
        return 13;
    }
    if !all_spared(site, last, nodes, stages, q, 15) {
        return 15;
    }
    if !all_spared(site, last, nodes, stages, q, 14) {
        return 14;
    }
    0
}
