// The export that has a path cut off which no state can take.
ghost use Rattle.std.specs.Prelude.{◌≡◌};
ghost use Rattle.prune_paths.specs.Prune.{prune as prune-of};
ghost use Rattle.c_prune.specs.Answer.{pruned, prune_answer};

// Answer, 4 bytes: the place of a refusal. Where `out` has no room for it nothing is written.
#[unsafe(no_mangle)]
pub extern "C" fn planner_prune(
    model: &[u8],
    nodes: &mut [i64],
    stages: &mut [u32],
    work: &mut [u32],
    stage: u32,
    turns: &[u8],
    multipliers: &[i32],
    out: &mut [u8],
) -> u32
    ensures { pruned result out.new nodes.new stages.new work.new
        ≡ prune_answer (prune-of model.now nodes.old stages.old work.old stage turns.now multipliers.now)
        nodes.old stages.old work.old out.old }
{
    c_prune::prune(model, nodes, stages, work, stage, turns, multipliers, out)
}
