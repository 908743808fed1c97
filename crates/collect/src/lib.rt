// Nodes used again: the table is made to hold exactly the nodes that roots need, in their order.
#![tactic(auto)]

ghost use Rattle.std.specs.Prelude.{◌≡◌, ◌*◌, ◌≤◌, length};
ghost use Rattle.rule_node.specs.Nodes.{Good};
ghost use Rattle.table_unique.specs.Unique.{Space};
ghost use Rattle.collect_mark.specs.Mark.{Below};
ghost use Rattle.collect.specs.Collect.{forwarded, Collected};
ghost use Rattle.table.specs.Table.{nodes_most};

// Each root's new index.
fn forward(work: &[u32], cap: usize, roots: &mut [u32])
    requires { (cap * 2 ≤ length work.now) × (cap ≤ nodes_most) × Below roots.old cap }
    ensures { roots.new ≡ forwarded work.now cap (length roots.old) roots.old }
{
    for r in roots.iter_mut() {
        *r = work[cap + *r as usize];
    }
}

// Answers how many nodes are left. Indexes move: chains and cache are to be made anew.
pub fn collect(
    nodes: &mut [i64],
    work: &mut [u32],
    cap: usize,
    count: usize,
    roots: &mut [u32],
) -> usize
    requires { Space cap nodes.old work.old count × Good nodes.old count × Below roots.old count }
    ensures { Collected nodes.old nodes.new work.old work.new roots.old roots.new count result }
{
    collect_mark::mark(nodes, work, cap, count, roots);
    let left = collect_compact::slide(nodes, work, cap, count);
    forward(work, cap, roots);
    left
}
