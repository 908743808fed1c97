// Numbers nodes from 1: root by root, high before low, a node after its branches.
// Work words: at 0 to cap the index of each number's node, at cap to 2 cap each node's number, 0 for none.
#![tactic(auto)]

mod branches; // branches.rt: single words of a node

ghost use Rattle.std.specs.Prelude.{◌≡◌, ◌+◌, ◌*◌, ◌≤◌, ◌<◌, length};
ghost use Rattle.theory.specs.Widths.{nodes_most};
ghost use Rattle.rule_node.specs.Nodes.{tree_at};
ghost use Rattle.finish_number.specs.Number.{TableHeld, Roots, Unnumbered, Numbered, assigned, TreeNumbered, RootsListed};

use branches::{HIGH, LOW};

// Node i gets the number after c.
fn assign(work: &mut [u32], cap: usize, c: usize, i: usize) -> usize
    requires { (cap * 2 ≤ length work.old) × (cap ≤ nodes_most) × (c < cap) × (i < cap) }
    ensures { (result ≡ c + 1) × (work.new ≡ assigned work.old cap c i) }
{
    work[c] = i as u32;
    work[cap + i] = (c + 1) as u32;
    c + 1
}

// The node at i and all below it, after the first c. Only indexes live over the calls: the depth is that of the diagram.
fn number(nodes: &[i64], work: &mut [u32], cap: usize, count: usize, c: usize, i: usize) -> usize
    requires { TableHeld cap nodes.now count × (i < count) × Numbered cap nodes.now count work.old c }
    ensures { TreeNumbered cap nodes.now count work.old work.new c result (tree_at nodes.now count i) }
{
    if work[cap + i] == 0 {
        if branches::is_leaf(nodes, i) {
            return assign(work, cap, c, i);
        }
        let h = number(nodes, work, cap, count, c, branches::branch(nodes, i, HIGH));
        let l = number(nodes, work, cap, count, h, branches::branch(nodes, i, LOW));
        return assign(work, cap, l, i);
    }
    c
}

// All nodes of the roots; the answer is their count.
pub fn number_all(nodes: &[i64], work: &mut [u32], roots: &[u32], cap: usize, count: usize) -> usize
    requires { TableHeld cap nodes.now count × (cap * 2 ≤ length work.old) × Unnumbered cap count work.old × Roots roots.now count }
    ensures { RootsListed cap nodes.now count work.new result roots.now }
{
    let mut c = 0;
    for r in roots {
        c = number(nodes, work, cap, count, c, *r as usize);
    }
    c
}
