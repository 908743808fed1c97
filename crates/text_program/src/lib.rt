// The listing program's answer: from a horizon byte and a model to the listing of the plan, or to the refusal.
#![tactic(auto)]

ghost use Rattle.std.specs.Prelude.{◌≡◌, ◌≤◌, length, take};
ghost use Rattle.theory.specs.Verdict.{refusal as refusal-of};
ghost use Rattle.theory.specs.Listing.{refusal_line};
ghost use Rattle.text_plan_lines.specs.Lines.{line_most};
ghost use Rattle.text_input.specs.Printed.{printed, text_bytes, tables_printed, plan_printed, program};

use model::STAGE_WORDS;
use solve_tables::{PEAK_WORDS, solve};
use table::NODE_WORDS;
use table_unique::WORK_WORDS;

// How many nodes its tables hold, and their words.
const NODES: usize = 512;

const NODES_WORDS: usize = NODES * NODE_WORDS;

const NODES_WORK: usize = NODES * WORK_WORDS;

// "A refusal prints `R number place`."
fn refusal(text: &mut [u8], number: u32, place: usize) -> usize
    requires { line_most ≤ length text.old }
    ensures { (result ≤ length text.old) × (take result text.new ≡ refusal_line (refusal-of number place)) }
{
    text_plan_lines::refusal_line(text, number, place)
}

// What is printed stands in the text's first bytes; answers how many.
fn print(
    model: &[u8],
    horizon: u32,
    nodes: &mut [i64],
    stages: &mut [u32],
    work: &mut [u32],
    peaks: &mut [u32],
    text: &mut [u8],
) -> usize
    requires { line_most ≤ length text.old }
    ensures { (result ≤ length text.old) × (take result text.new ≡ printed model.now horizon nodes.old stages.old work.old peaks.old (length text.old)) }
{
    let s = solve(model, horizon, nodes, stages, work, peaks);
    if s.number != 0 {
        return refusal(text, s.number, s.place);
    }
    let r = text_listing::listing(model, horizon, nodes, stages, text, 0);
    if r.number != 0 {
        return refusal(text, r.number, r.place);
    }
    r.size
}

// In tables of its own.
fn tabled(model: &[u8], horizon: u32, text: &mut [u8]) -> usize
    requires { length text.old ≡ text_bytes }
    ensures { (result ≤ text_bytes) × (take result text.new ≡ tables_printed model.now horizon) }
{
    let mut nodes = [0i64; NODES_WORDS];
    let mut stages = [0u32; STAGE_WORDS];
    let mut work = [0u32; NODES_WORK];
    let mut peaks = [0u32; PEAK_WORDS];
    print(
        model,
        horizon,
        &mut nodes,
        &mut stages,
        &mut work,
        &mut peaks,
        text,
    )
}

// A longer model is refused whatever the horizon.
fn plan(model: &[u8], horizon: u32, text: &mut [u8]) -> usize
    requires { length text.old ≡ text_bytes }
    ensures { (result ≤ text_bytes) × (take result text.new ≡ plan_printed model.now horizon) }
{
    if text_input::too_long(model) {
        return refusal(text, 10, 0);
    }
    tabled(model, horizon, text)
}

// From the input's bytes to the text that is printed.
pub fn answer(input: &[u8], text: &mut [u8]) -> usize
    requires { length text.old ≡ text_bytes }
    ensures { (result ≤ text_bytes) × (take result text.new ≡ program input.now) }
{
    plan(text_input::model(input), text_input::horizon(input), text)
}
