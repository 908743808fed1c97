// "then all nodes are made anew .. and the tables are numbered afresh, as after solving": the rows of lent tables and their
// stage words. A stage word 0 has no diagram and stays 0, so the others' roots and numbers are gathered and spread again.
#![tactic(auto)]

ghost use Rattle.std.specs.Prelude.{◌≤◌, length};
ghost use Rattle.prune_tables.specs.Tables.{StandingRows, Gathered, Spread, Rowed, Anew};

use model::STAGE_WORDS;
use prune_remake::{gone, remake};

// The stage word of a step that has no diagram.
const NO_DIAGRAM: u32 = 0;

// Where the stages' rows have gone, in order; answers how many there are. No row has the number 0.
fn gather_roots(work: &[u32], cap: usize, stages: &[u32], roots: &mut [u32]) -> usize
    requires { StandingRows cap work.now stages.now × (length stages.now ≤ length roots.old) }
    ensures { Gathered cap work.now stages.now roots.new result }
{
    let mut k = 0;
    for h in 0..stages.len() {
        if stages[h] != 0 {
            roots[k] = gone(work, cap, stages[h] as usize) as u32;
            k += 1;
        }
    }
    k
}

// The numbers in turn, where a word is not 0.
fn spread_numbers(numbers: &[u32], stages: &mut [u32])
    requires { length stages.old ≤ length numbers.now }
    ensures { Spread numbers.now stages.old stages.new }
{
    let mut k = 0;
    for h in 0..stages.len() {
        if stages[h] != NO_DIAGRAM {
            stages[h] = numbers[k];
            k += 1;
        }
    }
}

// Rows 1 to `rows` made anew, the stages' nodes numbered and nothing else left.
pub fn tables_anew(nodes: &mut [i64], stages: &mut [u32], work: &mut [u32], rows: usize)
    requires { Rowed nodes.old stages.old work.old rows }
    ensures { Anew nodes.old nodes.new stages.old stages.new work.old work.new }
{
    let count = remake(nodes, work, rows, rows);
    let mut roots = [0u32; STAGE_WORDS];
    let k = gather_roots(work, rows, stages, &mut roots);
    let mut numbers = [0u32; STAGE_WORDS];
    finish::finish(nodes, work, rows, count, &roots[..k], &mut numbers);
    spread_numbers(&numbers, stages);
}
