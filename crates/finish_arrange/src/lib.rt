// Brings numbered nodes into the order of their numbers, in place.
#![tactic(auto)]

ghost use Rattle.std.specs.Prelude.{◌≡◌, ◌+◌, ◌*◌, ◌≤◌, ◌<◌, length, get_or};
ghost use Rattle.table.specs.Table.{node_words};
ghost use Rattle.theory.specs.Widths.{nodes_most};
ghost use Rattle.finish_number.specs.Number.{TableHeld};
ghost use Rattle.finish_arrange.specs.Arrange.{swap_rows, swap_places, Inverse, Arranged, Rewritten};

// Each node's branches become their numbers.
pub fn rewrite(nodes: &mut [i64], work: &[u32], cap: usize, count: usize)
    requires { TableHeld cap nodes.old count × (cap * 2 ≤ length work.now) }
    ensures { Rewritten nodes.old nodes.new work.now cap count }
{
    for i in 0..count {
        let x = table_peek::renumbered(work, cap, table::get(nodes, i));
        table::put(nodes, i, x);
    }
}

// Nodes k and p change places.
fn swap_nodes(nodes: &mut [i64], k: usize, p: usize)
    requires { (k * node_words + node_words ≤ length nodes.old) × (p * node_words + node_words ≤ length nodes.old) }
    ensures { nodes.new ≡ swap_rows nodes.old k p }
{
    let x = table::get(nodes, k);
    let y = table::get(nodes, p);
    table::put(nodes, k, y);
    table::put(nodes, p, x);
}

// The work words after that: what stood at k stands at p. Nothing asks for k again.
fn swap_work(work: &mut [u32], cap: usize, k: usize, p: usize)
    requires { (cap * 2 ≤ length work.old) × (cap ≤ nodes_most) × (k < cap) × (p < cap) × (get_or work.old (cap + k) 0 ≤ cap) }
    ensures { work.new ≡ swap_places work.old cap k p }
{
    let q = work[cap + k] as usize;
    work[cap + p] = q as u32;
    if q == 0 {
        return;
    }
    work[q - 1] = p as u32;
}

// The first c places get the nodes that have the first c numbers.
pub fn arrange(nodes: &mut [i64], work: &mut [u32], cap: usize, count: usize, c: usize)
    requires { Inverse cap count work.old 0 c × (cap ≤ nodes_most) × (cap * node_words ≤ length nodes.old) }
    ensures { Arranged nodes.old nodes.new work.old c }
{
    for k in 0..c {
        let p = work[k] as usize;
        swap_nodes(nodes, k, p);
        swap_work(work, cap, k, p);
    }
}
