// A solve with room for a given number of nodes: the tables of the stages where it is solved.
#![tactic(auto)]

ghost use Rattle.std.specs.Prelude.{◌≡◌, ◌*◌, ◌≤◌, length, replicate};
ghost use Rattle.theory.specs.Widths.{bytes_most, steps_most, nodes_most, node_words, work_words, roots_most, peak_words};
ghost use Rattle.theory.specs.Verdict.{verdict};
ghost use Rattle.table_unique.specs.Unique.{Space};
ghost use Rattle.solve_in_room.specs.Solves.{Solves};

use solve_peaks::clear_peaks;
use solve_stages::Planned;
use solve_total::model_size;
use solve_value_iteration::{ROOTS, run_stages};

// All of it with the roots of the run: the tables of the stages where it is solved, whatever words else.
fn fill(
    model: &[u8],
    horizon: usize,
    nodes: &mut [i64],
    stages: &mut [u32],
    work: &mut [u32],
    cap: usize,
    roots: &mut [u32],
    peaks: &mut [u32],
) -> Planned
    requires { ((verdict model.now).number ≡ 0) × (length model.now ≤ bytes_most) × (horizon ≤ steps_most) × (1 ≤ horizon) × Space cap nodes.old work.old 0 × (length stages.old ≡ steps_most) × (length roots.old ≡ roots_most) × (peaks.old ≡ replicate peak_words 0) }
    ensures { Solves model.now horizon cap nodes.old nodes.new stages.new work.old work.new peaks.new result }
{
    let first = model_size(model);
    let r = run_stages(model, horizon, nodes, work, cap, roots, peaks);
    if r.stop == 0 {
        finish::finish(
            nodes,
            work,
            cap,
            r.count,
            &roots[first + 1..first + 1 + horizon],
            stages,
        );
    }
    r
}

// With room for cap nodes. Without any, the first leaf that loading makes has none.
pub fn solve_in(
    model: &[u8],
    horizon: usize,
    nodes: &mut [i64],
    stages: &mut [u32],
    work: &mut [u32],
    peaks: &mut [u32],
    cap: usize,
) -> Planned
    requires { ((verdict model.now).number ≡ 0) × (length model.now ≤ bytes_most) × (horizon ≤ steps_most) × (1 ≤ horizon)
        × (cap ≤ nodes_most) × (cap * node_words ≤ length nodes.old) × (cap * work_words ≤ length work.old) × (length stages.old ≡ steps_most) × (length peaks.old ≡ peak_words) }
    ensures { Solves model.now horizon cap nodes.old nodes.new stages.new work.old work.new peaks.new result }
{
    clear_peaks(peaks);
    if cap == 0 {
        return Planned {
            stop: 12,
            place: 0,
            count: 0,
            peak: 0,
        };
    }
    let mut roots = [0u32; ROOTS];
    fill(model, horizon, nodes, stages, work, cap, &mut roots, peaks)
}
