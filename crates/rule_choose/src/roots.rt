// What a rule of two operands goes on with.
ghost use Rattle.std.specs.Prelude.{◌≡◌, ◌+◌, ◌≤◌, length, take, drop};
ghost use Rattle.std.specs.Ordering.{ordering_index};
ghost use Rattle.whole.specs.Linears.{numbers};
ghost use Rattle.table.specs.Table.{node_at};
ghost use Rattle.rule_node.specs.Nodes.{At};
ghost use Rattle.rule_node.specs.Roots.{ord_num, order_of, test_node, Readable, left_sides, right_sides, both_sides};
ghost use Rattle.rule_choose.specs.Choice.{end_sides, split_of, pick_low, sides_of, test_words, choice_of};

use rule_node::{Down, Sides};
use rule_tests::{below_at, order_at, order_to, stands_at, test_at};
use std::cmp::Ordering;
use table::{NODE_WORDS, Node};

// The left operand's sides, the right one whole.
fn left(x: Down, f: usize, g: usize) -> Sides
    ensures { result ≡ left_sides x f g }
{
    Sides {
        ends: false,
        root: f,
        fh: x.high,
        gh: g,
        fl: x.low,
        gl: g,
    }
}

// The right operand's sides, the left one whole.
fn right(f: usize, y: Down, g: usize) -> Sides
    ensures { result ≡ right_sides f y g }
{
    Sides {
        ends: false,
        root: g,
        fh: f,
        gh: y.high,
        fl: f,
        gl: y.low,
    }
}

// The sides of both.
fn both(x: Down, f: usize, y: Down) -> Sides
    ensures { result ≡ both_sides x f y }
{
    Sides {
        ends: false,
        root: f,
        fh: x.high,
        gh: y.high,
        fl: x.low,
        gl: y.low,
    }
}

// Nothing to go on with but f and g; a choice's sides are f and k.
fn ended(f: usize, g: usize, k: usize) -> Sides
    ensures { result ≡ end_sides f g k }
{
    Sides {
        ends: true,
        root: f,
        fh: f,
        gh: g,
        fl: f,
        gl: k,
    }
}

// The sides of two nodes by the first root, their order being o.
fn split_by(x: Down, f: usize, y: Down, g: usize, o: Ordering) -> Sides
    ensures { result ≡ split_of x f y g (ordering_index o) }
{
    if x.ends {
        if y.ends {
            return ended(f, g, g);
        }
        return right(f, y, g);
    }
    if y.ends {
        return left(x, f, g);
    }
    match o {
        Ordering::Less => left(x, f, g),
        Ordering::Equal => both(x, f, y),
        Ordering::Greater => right(f, y, g),
    }
}

// The same by the order's number: 0 before, 1 equal, any other after.
pub fn split(x: Down, f: usize, y: Down, g: usize, o: usize) -> Sides
    ensures { result ≡ split_of x f y g o }
{
    if o == 0 {
        return split_by(x, f, y, g, Ordering::Less);
    }
    if o == 1 {
        return split_by(x, f, y, g, Ordering::Equal);
    }
    split_by(x, f, y, g, Ordering::Greater)
}

// The low operand's part in a choice, the high side being p of f; b is the order of the test and the low root.
fn low_by(p: usize, f: usize, y: Down, g: usize, b: Ordering) -> Sides
    ensures { result ≡ pick_low p f y g (ordering_index b) }
{
    if y.ends {
        return ended(p, g, g);
    }
    match b {
        Ordering::Less => ended(p, g, g),
        Ordering::Equal => ended(p, g, y.low),
        Ordering::Greater => right(f, y, g),
    }
}

// The same by the order's number: 2 after, 1 equal, any other before.
pub fn pick_low(p: usize, f: usize, y: Down, g: usize, b: usize) -> Sides
    ensures { result ≡ pick_low p f y g b }
{
    if b == 2 {
        return low_by(p, f, y, g, Ordering::Greater);
    }
    if b == 1 {
        return low_by(p, f, y, g, Ordering::Equal);
    }
    low_by(p, f, y, g, Ordering::Less)
}

// The sides of two roots at f and g by the first; where one ends they need not be compared.
fn first_root(nodes: &[i64], x: Down, f: usize, y: Down, g: usize) -> Sides
    requires { At nodes.now f × At nodes.now g }
    ensures { result ≡ split_of x f y g (ord_num (order_of (node_at nodes.now f) (node_at nodes.now g))) }
{
    if x.ends || y.ends {
        return split_by(x, f, y, g, Ordering::Less);
    }
    split_by(x, f, y, g, order_at(nodes, f, g))
}

// The low operand's part in a choice by a test of kind k, its numbers in t from i on, the high side being p of f; where the
// operand ends there is nothing to compare.
fn low_part(
    nodes: &[i64],
    k: i64,
    t: &[i64],
    i: usize,
    p: usize,
    f: usize,
    y: Down,
    g: usize,
) -> Sides
    requires { (i + numbers ≤ length t.now) × At nodes.now g }
    ensures { result ≡ pick_low p f y g (ord_num (order_of (test_words k (take numbers (drop i t.now))) (node_at nodes.now g))) }
{
    if y.ends {
        return low_by(p, f, y, g, Ordering::Less);
    }
    low_by(p, f, y, g, order_to(k, t, i, nodes, g))
}

// The sides that a rule goes on with at f and g, by the first root.
pub fn sides_at(nodes: &[i64], f: usize, g: usize) -> Sides
    requires { At nodes.now f × At nodes.now g }
    ensures { result ≡ sides_of (node_at nodes.now f) f (node_at nodes.now g) g }
{
    let x = below_at(nodes, f);
    let y = below_at(nodes, g);
    first_root(nodes, x, f, y, g)
}

// The sides that a choice by a test of kind k, its numbers in t from i on, goes on with at f and g: the roots' order counts
// only where the test comes after the high root.
fn choice_by(nodes: &[i64], k: i64, t: &[i64], i: usize, f: usize, g: usize) -> Sides
    requires { (i + numbers ≤ length t.now) × At nodes.now f × At nodes.now g }
    ensures { result ≡ choice_of (test_words k (take numbers (drop i t.now))) (node_at nodes.now f) f (node_at nodes.now g) g }
{
    let x = below_at(nodes, f);
    let y = below_at(nodes, g);
    if x.ends {
        return low_part(nodes, k, t, i, f, f, y, g);
    }
    match order_to(k, t, i, nodes, f) {
        Ordering::Less => low_part(nodes, k, t, i, f, f, y, g),
        Ordering::Equal => low_part(nodes, k, t, i, x.high, f, y, g),
        Ordering::Greater => first_root(nodes, x, f, y, g),
    }
}

// The same by the test z.
pub fn choice_at(nodes: &[i64], z: Node, f: usize, g: usize) -> Sides
    requires { At nodes.now f × At nodes.now g }
    ensures { result ≡ choice_of z (node_at nodes.now f) f (node_at nodes.now g) g }
{
    choice_by(nodes, z.kind, &z.n, 0, f, g)
}

// The same by the test that op and p give: a root's words are compared where they stand.
pub fn choice_of(nodes: &[i64], op: usize, p: usize, f: usize, g: usize) -> Sides
    requires { Readable nodes.now op p × At nodes.now f × At nodes.now g }
    ensures { result ≡ choice_of (test_node nodes.now op p) (node_at nodes.now f) f (node_at nodes.now g) g }
{
    if stands_at(nodes, op, p) {
        let i = p * NODE_WORDS;
        return choice_by(nodes, nodes[i], nodes, i + 1, f, g);
    }
    choice_at(nodes, test_at(nodes, op, p), f, g)
}
