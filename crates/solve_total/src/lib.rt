// An action's total in a stage: the next levels replaced, each condition summed out, the reward added.
#![tactic(auto)]

ghost use Rattle.std.specs.Prelude.{◌≡◌, ◌<◌};
ghost use Rattle.theory.specs.Computation.{Moment};
ghost use Rattle.theory.specs.Stage.{sum_out as summed};
ghost use Rattle.solve_total.specs.StageTable.{model_size, Sums, chances_of, Due, before_of, total_of, root_at, ActionRan};

use model::site;
use model_command::widening::{action_index, byte_index};
use solve_operation::{Rule, Run, operate};

// A Bellman backup of one action: how many roots are held, the place of the stage before among them, the stage, the action.
#[derive(Clone, Copy)]
pub struct Backup {
    pub held: usize,
    pub before: usize,
    pub stage: usize,
    pub action: usize,
}

// An action's chances among the roots: the place of the first, how many, the weight total.
#[derive(Clone, Copy)]
struct Chances {
    first: usize,
    count: usize,
    weights: u32,
}

// How many roots the model's diagrams have.
pub fn model_size(model: &[u8]) -> usize
    ensures { (result ≡ model_size model.now) × (result < 33554432) }
{
    let operands = site(model);
    let m = byte_index(operands.levels);
    let n = byte_index(operands.conditions);
    let a = action_index(operands.actions);
    a * (1 + n + m)
}

// The conditions summed out of the last root.
fn sum_out(
    nodes: &mut [i64],
    work: &mut [u32],
    cap: usize,
    run: Run,
    roots: &mut [u32],
    held: usize,
    chances: Chances,
) -> Run
    requires { Sums cap nodes.old work.old run roots.old held chances }
    ensures { (h : Moment) → ActionRan cap run.peak nodes.old run.count roots.old held h.stage
        (λ K. summed chances.weights h K 1 (chances_of nodes.old run.count roots.old held chances) (root_at nodes.old run.count roots.old held))
        nodes.new work.new roots.new result }
{
    let mut r = run;
    for k in 0..chances.count {
        r = operate(
            nodes,
            work,
            cap,
            r,
            roots,
            held + 1,
            held,
            Rule::Expect(chances.first + k, k + 1, held, chances.weights),
        );
        if r.stop != 0 {
            return r;
        }
    }
    r
}

// An action's total; it becomes the root behind those that are held.
pub fn total(
    model: &[u8],
    nodes: &mut [i64],
    work: &mut [u32],
    cap: usize,
    run: Run,
    roots: &mut [u32],
    backup: Backup,
) -> Run
    requires { Due model.now cap nodes.old work.old run.count roots.old backup.held backup }
    ensures { ActionRan cap run.peak nodes.old run.count roots.old backup.held backup.stage
        (total_of model.now backup (before_of nodes.old run.count roots.old backup))
        nodes.new work.new roots.new result }
{
    let operands = site(model);
    let m = byte_index(operands.levels);
    let n = byte_index(operands.conditions);
    let weights = operands.weights as u32;
    let row = (backup.action - 1) * (1 + n + m);
    let s = operate(
        nodes,
        work,
        cap,
        run,
        roots,
        backup.held,
        backup.held,
        Rule::Levels(row + 1 + n, m, backup.before),
    );
    if s.stop != 0 {
        return s;
    }
    let chances = Chances {
        first: row + 1,
        count: n,
        weights,
    };
    let e = sum_out(nodes, work, cap, s, roots, backup.held, chances);
    if e.stop != 0 {
        return e;
    }
    let exponent = (n * backup.stage) as u32;
    operate(
        nodes,
        work,
        cap,
        e,
        roots,
        backup.held + 1,
        backup.held,
        Rule::Reward(row, backup.held, weights, exponent, backup.action),
    )
}
