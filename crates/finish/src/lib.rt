// The tables after solving: the nodes of the stages in canonical order, the stages' numbers, zeros elsewhere.
#![tactic(auto)]

mod stages; // stages.rt: the stage words

ghost use Rattle.std.specs.Prelude.{◌*◌, ◌≤◌, length};
ghost use Rattle.table.specs.Table.{node_words};
ghost use Rattle.theory.specs.Widths.{nodes_most};
ghost use Rattle.finish_number.specs.Number.{TableHeld, Roots, RootsListed, trees_of};
ghost use Rattle.finish_arrange.specs.Arrange.{Inverse};
ghost use Rattle.finish.specs.Finish.{Unfinished, Finished, LaidOut, Cleared};

use table_clear::zeros;

// The roots' nodes get their numbers, whatever the work words held; the answer is their count.
fn number_stages(nodes: &[i64], work: &mut [u32], roots: &[u32], cap: usize, count: usize) -> usize
    requires { TableHeld cap nodes.now count × (cap * 2 ≤ length work.old) × Roots roots.now count }
    ensures { RootsListed cap nodes.now count work.new result roots.now }
{
    table_clear::work(work, cap, cap + count);
    finish_number::number_all(nodes, work, roots, cap, count)
}

// The first c nodes by their numbers, and nothing else.
fn lay_out(nodes: &mut [i64], work: &mut [u32], cap: usize, count: usize, c: usize)
    requires { Inverse cap count work.old 0 c × (cap ≤ nodes_most) × (cap * node_words ≤ length nodes.old) }
    ensures { LaidOut nodes.old nodes.new work.old work.new c }
{
    finish_arrange::arrange(nodes, work, cap, count, c);
    zeros::nodes_from(nodes, c * table::NODE_WORDS);
    zeros::words_from(work, 0);
}

// Leaves the tables as they are after solving, for the stages at the roots; the answer is the count of nodes.
pub fn finish(
    nodes: &mut [i64],
    work: &mut [u32],
    cap: usize,
    count: usize,
    roots: &[u32],
    stages: &mut [u32],
) -> usize
    requires { Unfinished cap nodes.old count work.old roots.now stages.old }
    ensures { Finished nodes.old nodes.new work.old work.new stages.new result (trees_of nodes.old count roots.now) }
{
    let c = number_stages(nodes, work, roots, cap, count);
    finish_arrange::rewrite(nodes, work, cap, count);
    stages::stage_words(work, roots, stages, cap);
    lay_out(nodes, work, cap, count, c);
    c
}

// Nothing but zeros: what 11 and 12 leave.
pub fn clear_all(nodes: &mut [i64], stages: &mut [u32], work: &mut [u32])
    ensures { Cleared nodes.old nodes.new stages.old stages.new work.old work.new }
{
    zeros::nodes_from(nodes, 0);
    zeros::words_from(stages, 0);
    zeros::words_from(work, 0);
}
