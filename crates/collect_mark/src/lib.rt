// Marks the nodes that roots need, in the first cap work words: one pass from the last node down.
#![tactic(auto)]

ghost use Rattle.std.specs.Prelude.{◌≡◌, ◌+◌, ◌*◌, ◌≤◌, ◌<◌, length};
ghost use Rattle.table.specs.Table.{node_words, node_at, nodes_most};
ghost use Rattle.rule_node.specs.Nodes.{Valid, Good};
ghost use Rattle.table_unique.specs.Unique.{Space};
ghost use Rattle.collect_mark.specs.Mark.{Below, mark_step, mark_down, Marked};

// The branches of a marked node become marked.
fn below(nodes: &[i64], work: &mut [u32], i: usize)
    requires { (i * node_words + node_words ≤ length nodes.now) × (i < length work.old) × (i ≤ nodes_most) × Valid (node_at nodes.now i) i }
    ensures { work.new ≡ mark_step nodes.now work.old i }
{
    if work[i] == 0 {
        return;
    }
    let x = table::get(nodes, i);
    if table_peek::is_leaf(x) {
        return;
    }
    let h = table_peek::high(x);
    let l = table_peek::low(x);
    work[h] = 1;
    work[l] = 1;
}

// So for all nodes. From the last down, for a node's branches lie below it.
fn descend(nodes: &[i64], work: &mut [u32], count: usize)
    requires { (count * node_words ≤ length nodes.now) × (count ≤ length work.old) × (count ≤ nodes_most) × Good nodes.now count }
    ensures { work.new ≡ mark_down nodes.now work.old count }
{
    for i in (0..count).rev() {
        below(nodes, work, i);
    }
}

// A word of 1 for each node that the roots need, 0 for the others.
pub fn mark(nodes: &[i64], work: &mut [u32], cap: usize, count: usize, roots: &[u32])
    requires { Space cap nodes.now work.old count × Good nodes.now count × Below roots.now count }
    ensures { Marked cap nodes.now work.old work.new roots.now count }
{
    table_clear::work(work, 0, cap);
    for r in roots {
        work[*r as usize] = 1;
    }
    descend(nodes, work, count);
}
