// Marked nodes slide down, in order. Work words: a mark for each node at 0 to cap, and for each
// marked node its new index at cap to 2 cap.
#![tactic(auto)]

ghost use Rattle.std.specs.Prelude.{◌*◌, ◌≤◌, ◌<◌, length};
ghost use Rattle.table.specs.Table.{node_words, node_at, nodes_most};
ghost use Rattle.rule_node.specs.Nodes.{Valid, Good};
ghost use Rattle.table_unique.specs.Unique.{Space};
ghost use Rattle.collect_compact.specs.Slide.{SlidOne, Stayed, MarksClosed, Slid};

// One node: where it is marked it goes to index j. Answers the next such index.
fn slide_one(nodes: &mut [i64], work: &mut [u32], cap: usize, i: usize, j: usize) -> usize
    requires { (cap * node_words ≤ length nodes.old) × (cap * 2 ≤ length work.old) × (cap ≤ nodes_most) × (i < cap) × (j ≤ i) × Valid (node_at nodes.old i) cap }
    ensures { SlidOne nodes.old work.old cap i j nodes.new work.new result }
{
    if work[i] == 0 {
        return j;
    }
    let x = table_peek::renumbered(work, cap, table::get(nodes, i));
    table::put(nodes, j, x);
    work[cap + i] = j as u32;
    j + 1
}

// The nodes up to the first that is not marked stay in place: each is forwarded to itself. Answers how many.
fn stay(work: &mut [u32], cap: usize, count: usize) -> usize
    requires { (cap * 2 ≤ length work.old) × (cap ≤ nodes_most) × (count ≤ cap) }
    ensures { Stayed cap work.old work.new count result }
{
    for i in 0..count {
        if work[i] == 0 {
            return i;
        }
        work[cap + i] = i as u32;
    }
    count
}

// All nodes, from the first on. Answers how many are left.
pub fn slide(nodes: &mut [i64], work: &mut [u32], cap: usize, count: usize) -> usize
    requires { Space cap nodes.old work.old count × Good nodes.old count × MarksClosed nodes.old work.old count }
    ensures { Slid cap nodes.old nodes.new work.old work.new count result }
{
    let first = stay(work, cap, count);
    let mut j = first;
    for i in first..count {
        j = slide_one(nodes, work, cap, i, j);
    }
    j
}
