// Exports that judge a model and solve it.
ghost use Rattle.std.specs.Prelude.{◌≡◌};
ghost use Rattle.theory.specs.Solve.{solve as solve-of};
ghost use Rattle.c_answers.specs.SolveAnswer.{model_verdict, solved, solve_answer};

use model::Verdict;

// Number and place of a model's refusal: 10 for its length, then its own, 1 to 8; 0 and 0 where it is accepted.
// No steps are asked, and no stage words lent: both are given as good ones.
#[unsafe(no_mangle)]
pub extern "C" fn planner_validate(bytes: &[u8]) -> Verdict
    ensures { (result.number ≡ (model_verdict bytes.now).number) × (result.place ≡ (model_verdict bytes.now).place) }
{
    model::early(bytes, 1, 8)
}

// Answer, 8 bytes: place, peak; `peaks` has those of loading and of each action. Where `out` has no room for it nothing runs:
// the early refusals alone decide.
#[unsafe(no_mangle)]
pub extern "C" fn planner_solve(
    bytes: &[u8],
    horizon: u32,
    nodes: &mut [i64],
    stages: &mut [u32],
    work: &mut [u32],
    peaks: &mut [u32],
    out: &mut [u8],
) -> u32
    ensures { solved result out.new nodes.new stages.new work.new peaks.new
        ≡ solve_answer (solve-of bytes.now horizon nodes.old stages.old work.old peaks.old)
        nodes.old stages.old work.old peaks.old out.old }
{
    if out.len() < 8 {
        let early = solve_tables::early(bytes, horizon, stages.len(), peaks.len());
        return c_answers::short(early.number);
    }
    let v = solve_tables::solve(bytes, horizon, nodes, stages, work, peaks);
    c_answers::put_pair(out, v.place, v.peak);
    v.number
}
