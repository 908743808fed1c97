// "Paths that no state can take": a path for a stage is refused with everything untouched, or cut off, and the tables are
// made anew.
#![tactic(auto)]

ghost use Rattle.std.specs.Prelude.{◌≡◌};
ghost use Rattle.prune_paths.specs.Prune.{pruned};
ghost use Rattle.prune_paths.specs.Prune.{prune as prune-of};
ghost use Rattle.prune.specs.CutOutcome.{CutAccepted, outcome, left};

use model::{STAGE_WORDS, Verdict};
use prune_copy::copy_path;
use prune_tables::tables_anew;
use text_listing::judging::greatest_root;

// The path's copy becomes the stage's root; then all is made anew, with as many rows as the copy and the roots reach.
fn cut_off(nodes: &mut [i64], stages: &mut [u32], work: &mut [u32], stage: u32, turns: &[u8])
    requires { CutAccepted nodes.old stages.old work.old stage turns.now }
    ensures { left nodes.new stages.new work.new ≡ pruned nodes.old stages.old work.old stage turns.now }
{
    let last = greatest_root(stages, STAGE_WORDS) as usize;
    let at = (stage - 1) as usize;
    let root = stages[at] as usize;
    let copy = copy_path(nodes, root, turns, last);
    stages[at] = copy as u32;
    tables_anew(nodes, stages, work, last + (turns.len() - 1));
}

// A path for a stage, with a multiplier for each linear test on the way: a refusal's number and place, or 0.
pub fn prune(
    model: &[u8],
    nodes: &mut [i64],
    stages: &mut [u32],
    work: &mut [u32],
    stage: u32,
    turns: &[u8],
    multipliers: &[i32],
) -> Verdict
    ensures { outcome result nodes.new stages.new work.new ≡ prune-of model.now nodes.old stages.old work.old stage turns.now multipliers.now }
{
    let most = table_room::room(nodes.len(), work.len());
    let v = prune_judge::refusal(model, nodes, stages, most, stage, turns, multipliers);
    if v.number != 0 {
        return v;
    }
    cut_off(nodes, stages, work, stage, turns);
    Verdict {
        number: 0,
        place: 0,
    }
}
