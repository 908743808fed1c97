// What a rule makes of a leaf.
ghost use Rattle.std.specs.Prelude.{◌≡◌, ◌+◌, ◌*◌, ◌≤◌, length};
ghost use Rattle.table.specs.Table.{node_words, node_at};
ghost use Rattle.rule_node.specs.Nodes.{tree_at, Nums};
ghost use Rattle.rule_node.specs.Table.{Bare, Grew};
ghost use Rattle.rule_leaves.specs.Leaves.{AtLeaf};
ghost use Rattle.rule_unary_node.specs.Acts.{acted_node, stays_by, act_of, Acts};

use super::halves::number_of;
use rule_leaves::changes::{complemented, numbered, shifted};
use rule_leaves::numbers::{product, stays_none};
use rule_node::codes::{COMPLEMENT, NUMBER, SCALE, SHIFT};
use rule_node::making::{intern, make_leaf};
use table::{Made, Node, Stopped};

// The leaf that the rule op makes of a leaf.
fn acted(x: Node, op: usize, p: usize, q: usize) -> Node
    requires { Nums x × Acts op p q }
    ensures { result ≡ acted_node op p q x }
{
    match op {
        SCALE => product(number_of(p, q), x),
        SHIFT => shifted(x, number_of(p, q)),
        COMPLEMENT => complemented(x, p),
        NUMBER => numbered(x, p),
        _ => x,
    }
}

// Whether the rule op leaves the leaf f as it is: a side does; "none" is not numbered, and a number times it but 0 is it.
fn stays(nodes: &[i64], op: usize, f: usize, p: usize, q: usize) -> bool
    requires { Acts op p q × (f * node_words + node_words ≤ length nodes.now) }
    ensures { result ≡ stays_by op p q (node_at nodes.now f) }
{
    match op {
        SCALE => stays_none(nodes, number_of(p, q), f),
        SHIFT | COMPLEMENT => false,
        NUMBER => table::none_at(nodes, f),
        _ => true,
    }
}

// What the rule op comes to at the leaf f. A number that acts is judged; an action is none.
pub fn at_leaf(
    nodes: &mut [i64],
    work: &mut [u32],
    cap: usize,
    count: usize,
    op: usize,
    f: usize,
    p: usize,
    q: usize,
) -> Result<Made, Stopped>
    requires { Bare cap nodes.old work.old count × Acts op p q × AtLeaf nodes.old count f }
    ensures { Grew cap nodes.old work.old count (act_of op p q (tree_at nodes.old count f)) nodes.new work.new result }
{
    if stays(nodes, op, f, p, q) {
        return Ok(Made { at: f, count });
    }
    let y = acted(table::get(nodes, f), op, p, q);
    if op > COMPLEMENT {
        return intern(nodes, work, cap, count, y);
    }
    make_leaf(nodes, work, cap, count, y)
}
