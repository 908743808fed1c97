// "then all nodes are made anew, their tests as they stand": row by row from the first on, each at or before its own place.
// Work words: the unique table's chains at 0 to 2 cap; at 2 cap to 3 cap where each row has gone.
#![tactic(auto)]

ghost use Rattle.std.specs.Prelude.{◌≡◌, ◌+◌, ◌-◌, ◌*◌, ◌≤◌, ◌<◌, length};
ghost use Rattle.table.specs.Table.{node_words, node_at, nodes_most};
ghost use Rattle.table_unique.specs.Unique.{work_words};
ghost use Rattle.rule_node.specs.Table.{Bare, Grew};
ghost use Rattle.prune_paths.specs.Prune.{GoodRows};
ghost use Rattle.prune_rows.specs.Rows.{RowFits};
ghost use Rattle.prune_remake.specs.Remade.{forward, row_anew, Gone, Remade};

use rule_node::making::{intern, join_test};
use table::{Made, Stopped};

// The index that row r has gone to; rows are numbered from 1.
pub fn gone(work: &[u32], cap: usize, r: usize) -> usize
    requires { (0 < r) × (r ≤ cap) × (cap ≤ nodes_most) × (cap * work_words ≤ length work.now) }
    ensures { result ≡ forward cap work.now (r - 1) }
{
    work[cap * 2 + (r - 1)] as usize
}

// The row at index i made anew over what its branches have become.
fn remake_row(
    nodes: &mut [i64],
    work: &mut [u32],
    cap: usize,
    count: usize,
    i: usize,
) -> Result<Made, Stopped>
    requires { Bare cap nodes.old work.old count × (i < cap) × RowFits (node_at nodes.old i) i × Gone cap work.old count i }
    ensures { Grew cap nodes.old work.old count (row_anew cap nodes.old work.old count (node_at nodes.old i)) nodes.new work.new result }
{
    let x = table::get(nodes, i);
    if table_peek::is_leaf(x) {
        return intern(nodes, work, cap, count, x);
    }
    let h = gone(work, cap, table_peek::high(x));
    let l = gone(work, cap, table_peek::low(x));
    join_test(nodes, work, cap, count, x, h, l)
}

// Rows 1 to `rows`; answers how many nodes they come to.
pub fn remake(nodes: &mut [i64], work: &mut [u32], cap: usize, rows: usize) -> usize
    requires { GoodRows nodes.old rows × (0 < cap) × (cap ≤ nodes_most) × (rows ≤ cap) × (cap * node_words ≤ length nodes.old) × (cap * work_words ≤ length work.old) }
    ensures { Remade cap nodes.old nodes.new work.new result rows × (length nodes.new ≡ length nodes.old) × (length work.new ≡ length work.old) }
{
    table_clear::work(work, 0, cap);
    let mut count = 0;
    for i in 0..rows {
        // A row comes to one node at most, so there is room for each.
        let r = remake_row(nodes, work, cap, count, i).unwrap();
        work[cap * 2 + i] = r.at as u32;
        count = r.count;
    }
    count
}
