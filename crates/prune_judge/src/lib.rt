// A path for a stage of a plan: every refusal, before a word is written.
#![tactic(auto)]

ghost use Rattle.std.specs.Prelude.{◌≡◌, ◌≤◌, ◌+◌, ◌-◌, ltb, length};
ghost use Rattle.theory.specs.Widths.{steps_most, conditions_most};
ghost use Rattle.theory.specs.Verdict.{refusal as refusal-of};
ghost use Rattle.theory.specs.Listing.{greatest_root};
ghost use Rattle.model_progress.specs.GivenFlags.{site_as};
ghost use Rattle.model.specs.Answers.{shown};
ghost use Rattle.prune_paths.specs.Prune.{prune_refusal};
ghost use Rattle.prune_judge.specs.PathRefusals.{plan_verdict};

use model::{STAGE_WORDS, Verdict};
use model_progress::Site;
use prune_certificate::path_number;
use text_listing::judging::{all_good, greatest_root};

// The stage has no diagram.
const NO_DIAGRAM: u32 = 15;

// The nodes are none that this library makes.
const FOREIGN_NODES: u32 = 14;

// The tables have too little room.
const NO_ROOM: u32 = 12;

fn refused(number: u32, place: usize) -> Verdict
    ensures { shown result ≡ refusal-of number place }
{
    Verdict { number, place }
}

// The nodes up to a root, and one for each turn but the last, are more than the most. Their sum could wrap.
fn exceeds(most: usize, root: u32, turns: usize) -> bool
    ensures { result ≡ ltb most (root + (turns - 1)) }
{
    let root = root as usize;
    most < root || most - root < turns.saturating_sub(1)
}

// "after 15 (for that stage only) and 14 (up to the greatest of the eight roots), before 12"
fn judge_plan(
    site: Site,
    nodes: &[i64],
    stages: &[u32],
    most: usize,
    stage: u32,
    root: u32,
    turns: &[u8],
    ks: &[i32],
) -> Verdict
    requires { ((site_as site).conditions ≤ conditions_most) × (steps_most ≤ length stages.now) × (root ≤ greatest_root steps_most stages.now) }
    ensures { shown result ≡ plan_verdict (site_as site) nodes.now stages.now most stage root turns.now ks.now }
{
    if root == 0 {
        return refused(NO_DIAGRAM, 0);
    }
    let last = greatest_root(stages, STAGE_WORDS);
    if !all_good(
        u32::from(site.conditions),
        u32::from(site.actions),
        nodes,
        last as usize,
    ) {
        return refused(FOREIGN_NODES, 0);
    }
    let k = path_number(nodes, root, turns, ks);
    if k != 0 {
        return refused(k, 0);
    }
    if exceeds(most, last, turns.len()) {
        return refused(NO_ROOM, stage as usize);
    }
    refused(0, 0)
}

// The refusal of a path for a stage, 0 where it is to be cut off; the tables hold at most so many nodes.
pub fn refusal(
    bytes: &[u8],
    nodes: &[i64],
    stages: &[u32],
    most: usize,
    stage: u32,
    turns: &[u8],
    ks: &[i32],
) -> Verdict
    ensures { shown result ≡ prune_refusal bytes.now nodes.now stages.now most stage turns.now ks.now }
{
    let v = model::early(bytes, stage, stages.len());
    if v.number != 0 {
        return v;
    }
    let root = stages[(stage - 1) as usize];
    judge_plan(
        model::site(bytes),
        nodes,
        stages,
        most,
        stage,
        root,
        turns,
        ks,
    )
}
