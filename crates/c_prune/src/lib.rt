// A path for a stage with the rest of its answer as bytes, as a host in C asks for it.
#![tactic(auto)]

ghost use Rattle.std.specs.Prelude.{◌≡◌};
ghost use Rattle.prune_paths.specs.Prune.{prune as prune-of};
ghost use Rattle.c_prune.specs.Answer.{pruned, prune_answer};

// The answer: the place of a refusal.
const ANSWER_BYTES: usize = 4;

// Where `out` has no room for the answer the path is judged, and nothing is written.
pub fn prune(
    model: &[u8],
    nodes: &mut [i64],
    stages: &mut [u32],
    work: &mut [u32],
    stage: u32,
    turns: &[u8],
    multipliers: &[i32],
    out: &mut [u8],
) -> u32
    ensures { pruned result out.new nodes.new stages.new work.new
        ≡ prune_answer (prune-of model.now nodes.old stages.old work.old stage turns.now multipliers.now)
        nodes.old stages.old work.old out.old }
{
    if out.len() < ANSWER_BYTES {
        let most = table_room::room(nodes.len(), work.len());
        let v = prune_judge::refusal(model, nodes, stages, most, stage, turns, multipliers);
        return c_answers::short(v.number);
    }
    let v = prune::prune(model, nodes, stages, work, stage, turns, multipliers);
    c_answers::put_le(out, 0, v.place as u64, ANSWER_BYTES);
    v.number
}
