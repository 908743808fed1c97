// Judging a plan before it is written: a stage without a root, then a node that is not as the layout has it.
ghost use Rattle.std.specs.Prelude.{◌≡◌, not, ◌-◌, ◌≤◌, length};
ghost use Rattle.theory.specs.Valid.{all};
ghost use Rattle.theory.specs.Verdict.{from_to};
ghost use Rattle.theory.specs.Value.{good_row};
ghost use Rattle.theory.specs.Listing.{greatest_root};
ghost use Rattle.model_progress.specs.GivenFlags.{site_as};
ghost use Rattle.text_listing.specs.Refusal.{rooted, plan_refusal};

use model_progress::Site;
use table::NODE_WORDS;
use table_rows::{Kind, row_kind};

// The greatest root of the first stages.
pub fn greatest_root(stages: &[u32], last: usize) -> u32
    requires { last ≤ length stages.now }
    ensures { result ≡ greatest_root last stages.now }
{
    let mut root = 0;
    for h in 0..last {
        root = root.max(stages[h]);
    }
    root
}

fn all_rooted(stages: &[u32], last: usize) -> bool
    requires { last ≤ length stages.now }
    ensures { result ≡ all (rooted stages.now) (from_to 1 last) }
{
    for h in 0..last {
        if stages[h] == 0 {
            return false;
        }
    }
    true
}

fn good(conditions: u32, actions: u32, nodes: &[i64], r: usize) -> bool
    requires { 1 ≤ r }
    ensures { result ≡ good_row conditions actions nodes.now r }
{
    !matches!(row_kind(conditions, actions, nodes, r), Kind::Bad)
}

// Nodes 1 to the last are good. A last one outside the table decides at once: it can be far outside.
pub fn all_good(conditions: u32, actions: u32, nodes: &[i64], last: usize) -> bool
    ensures { result ≡ all (good_row conditions actions nodes.now) (from_to 1 last) }
{
    if nodes.len() / NODE_WORDS < last {
        return false;
    }
    for r in 0..last {
        if !good(conditions, actions, nodes, r + 1) {
            return false;
        }
    }
    true
}

// 15, 14, or 0 where neither applies.
pub(crate) fn plan_refusal(site: Site, horizon: u32, nodes: &[i64], stages: &[u32]) -> u32
    requires { horizon ≤ length stages.now }
    ensures { result ≡ plan_refusal (site_as site) horizon nodes.now stages.now }
{
    if !all_rooted(stages, horizon as usize) {
        return 15;
    }
    let root = greatest_root(stages, horizon as usize) as usize;
    if !all_good(
        u32::from(site.conditions),
        u32::from(site.actions),
        nodes,
        root,
    ) {
        return 14;
    }
    0
}
