// "solve": refused early with all untouched, or run to the tables of the stages, or refused on the way with all zero.
#![tactic(auto)]

ghost use Rattle.std.specs.Prelude.{◌≡◌};
ghost use Rattle.theory.specs.Solve.{early_with_peaks};
ghost use Rattle.theory.specs.Solve.{solve as solve-of};
ghost use Rattle.model.specs.Answers.{shown};
ghost use Rattle.solve_tables.specs.SolveOutcome.{outcome};

use model::Verdict;
use model_progress::refusals::SIZES;
use solve_in_room::solve_in;
use solve_peaks::clear_peaks;
use table_room::room;

// "a lent slice of 401 32-bit words"
pub const PEAK_WORDS: usize = 401;

// A refusal's number and place, both 0 where there is none; then the peak.
#[derive(Clone, Copy)]
pub struct Solved {
    pub number: u32,
    pub place: usize,
    pub peak: usize,
}

// "10: stage words not eight", or peaks not 401, "or model above 262,144 bytes"; then 9 and the model's own.
pub fn early(model: &[u8], horizon: u32, stage_words: usize, peak_words: usize) -> Verdict
    ensures { shown result ≡ early_with_peaks model.now horizon stage_words peak_words }
{
    if peak_words != PEAK_WORDS {
        return Verdict {
            number: SIZES,
            place: 0,
        };
    }
    model::early(model, horizon, stage_words)
}

// A site model, a horizon and lent tables: the peaks and the tables, or a refusal.
pub fn solve(
    model: &[u8],
    horizon: u32,
    nodes: &mut [i64],
    stages: &mut [u32],
    work: &mut [u32],
    peaks: &mut [u32],
) -> Solved
    ensures { outcome result nodes.new stages.new work.new peaks.new ≡ solve-of model.now horizon nodes.old stages.old work.old peaks.old }
{
    let v = early(model, horizon, stages.len(), peaks.len());
    if v.number != 0 {
        return Solved {
            number: v.number,
            place: v.place,
            peak: 0,
        };
    }
    let cap = room(nodes.len(), work.len());
    let r = solve_in(model, horizon as usize, nodes, stages, work, peaks, cap);
    if r.stop != 0 {
        finish::clear_all(nodes, stages, work);
        clear_peaks(peaks);
        return Solved {
            number: r.stop as u32,
            place: r.place,
            peak: 0,
        };
    }
    Solved {
        number: 0,
        place: 0,
        peak: r.peak,
    }
}
