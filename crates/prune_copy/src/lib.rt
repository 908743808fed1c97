// "An accepted path's last node is replaced, on that path only, by its other branch": what other paths share stays, so the
// path's nodes are copied, but for the last. One walk down from the root writes the copies, the root's as the last row.
#![tactic(auto)]

ghost use Rattle.std.specs.Prelude.{◌≡◌, ◌+◌, ◌*◌, ◌^◌, ◌≤◌, ◌<◌, T, length};
ghost use Rattle.theory.specs.Widths.{node_words};
ghost use Rattle.table_rows.specs.Row.{Inside};
ghost use Rattle.prune_paths.specs.Prune.{diagram_at, fits, GoodRows};
ghost use Rattle.prune_copy.specs.Copy.{stand_in as stands_in, turned as turned-to, CopyReady, CopyStepped, rows_after, Copied};

use prune_rows::branch;
use table::Node;

// A turn to a node's high branch.
const HIGH: u8 = 1;

// What stands in for row r, where turn k is taken: its other branch if it is the path's last node, else its copy, row c.
fn stand_in(nodes: &[i64], turns: &[u8], k: usize, r: usize, c: usize) -> usize
    requires { (k < length turns.now) × Inside nodes.now r }
    ensures { result ≡ stands_in nodes.now turns.now k r c }
{
    if k + 1 < turns.len() {
        c
    } else {
        branch(nodes, r, turns[k] != HIGH)
    }
}

// A node with another branch on one side.
fn turned(mut x: Node, high: bool, b: usize) -> Node
    requires { b < 2 ^ 63 }
    ensures { result ≡ turned-to x high b }
{
    let word = b as i64;
    if high {
        x.high = word;
    } else {
        x.low = word;
    }
    x
}

// Row r copied to row c, over what stands in for the next row, which it answers.
fn copy_row(nodes: &mut [i64], turns: &[u8], k: usize, r: usize, c: usize) -> usize
    requires { CopyReady nodes.old turns.now k r c }
    ensures { CopyStepped nodes.old turns.now k r c nodes.new result }
{
    let high = turns[k] == HIGH;
    let next = branch(nodes, r, high);
    let b = stand_in(nodes, turns, k + 1, next, c - 1);
    let x = turned(table::get(nodes, r - 1), high, b);
    table::put(nodes, c - 1, x);
    next
}

// The path from row `root`, copied behind row `last`; answers the row of its new root.
pub fn copy_path(nodes: &mut [i64], root: usize, turns: &[u8], last: usize) -> usize
    requires { GoodRows nodes.old last × (1 ≤ root) × (root ≤ last) × (1 ≤ length turns.now) × T (fits turns.now (diagram_at nodes.old root)) × (rows_after last turns.now * node_words ≤ length nodes.old) }
    ensures { Copied nodes.old nodes.new root turns.now last result }
{
    let copies = turns.len() - 1;
    let mut c = last + copies;
    let answer = stand_in(nodes, turns, 0, root, c);
    let mut r = root;
    for k in 0..copies {
        r = copy_row(nodes, turns, k, r, c);
        c -= 1;
    }
    answer
}
