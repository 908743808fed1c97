// Numbers and tests compared, the test that a choice is given, and what lies below a node.
#![tactic(auto)]

ghost use Rattle.std.specs.Prelude.{◌≡◌, true, false, ◌+◌, ◌≤◌, length, take, drop};
ghost use Rattle.whole.specs.Linears.{numbers};
ghost use Rattle.table.specs.Table.{node_at, is_leaf};
ghost use Rattle.theory.specs.Widths.{conditions_most};
ghost use Rattle.theory.specs.Diagram.{then, cmp_ℤ, cmp_list};
ghost use Rattle.rule_node.specs.Codes.{choose_later_code};
ghost use Rattle.rule_node.specs.Nodes.{Nums, At};
ghost use Rattle.rule_node.specs.Roots.{ordering, order_of, condition_node, later_node, named_node, test_node, Readable, down_of};

use rule_node::codes::{CHOOSE_LATER, CONDITION, LINEAR};
use rule_node::{Down, index};
use std::cmp::Ordering;
use table::{HIGH, LOW, NODE_WORDS, Node};
use whole::{COEFFICIENTS, NUMBERS};
use whole_linears::divided;

// What lies below the node at i: its kind and its branches are read, no numbers.
pub fn below_at(nodes: &[i64], i: usize) -> Down
    requires { At nodes.now i }
    ensures { result ≡ down_of (node_at nodes.now i) }
{
    let at = i * NODE_WORDS;
    Down {
        ends: table::is_leaf(nodes[at]),
        high: index(nodes[at + HIGH]),
        low: index(nodes[at + LOW]),
    }
}

// The numbers of two tests where they stand, from i and from j on: coefficient by coefficient, then the constant.
fn order_numbers(a: &[i64], i: usize, b: &[i64], j: usize) -> Ordering
    requires { (i + numbers ≤ length a.now) × (j + numbers ≤ length b.now) }
    ensures { result ≡ ordering (cmp_list (take numbers (drop i a.now)) (take numbers (drop j b.now))) }
{
    for k in 0..COEFFICIENTS {
        let p = a[i + k];
        let q = b[j + k];
        if p != q {
            return p.cmp(&q);
        }
    }
    let c = a[i + COEFFICIENTS];
    let d = b[j + COEFFICIENTS];
    c.cmp(&d)
}

// The order of two tests, a case each: of kinds x and y, their numbers in a from i on and in b from j on. All numbers are
// compared in one place, the last, so that this stays small: those of linear tests, and of what no case before tells apart,
// as a condition and itself.
pub fn order_words(x: i64, a: &[i64], i: usize, y: i64, b: &[i64], j: usize) -> Ordering
    requires { (i + numbers ≤ length a.now) × (j + numbers ≤ length b.now) }
    ensures { result ≡ ordering (then (cmp_ℤ x y) (cmp_list (take numbers (drop i a.now)) (take numbers (drop j b.now)))) }
{
    // A condition comes before a linear test.
    if x == LINEAR && y == CONDITION {
        return Ordering::Greater;
    }
    if x == CONDITION {
        if y == LINEAR {
            return Ordering::Less;
        }
        // Two conditions go by number.
        if y == CONDITION {
            let m = a[i];
            let n = b[j];
            if m != n {
                return m.cmp(&n);
            }
        }
    }
    // A leaf is no test: it keeps the place that its words give it, and no rule goes by it.
    if x != y {
        return x.cmp(&y);
    }
    order_numbers(a, i, b, j)
}

// The order of a test of kind x, its numbers in a from i on, and the one at g.
pub fn order_to(x: i64, a: &[i64], i: usize, nodes: &[i64], g: usize) -> Ordering
    requires { (i + numbers ≤ length a.now) × At nodes.now g }
    ensures { result ≡ ordering (then (cmp_ℤ x (node_at nodes.now g).kind) (cmp_list (take numbers (drop i a.now)) (node_at nodes.now g).n)) }
{
    let j = g * NODE_WORDS;
    order_words(x, a, i, nodes[j], nodes, j + 1)
}

// The order of the tests at f and g.
pub fn order_at(nodes: &[i64], f: usize, g: usize) -> Ordering
    requires { At nodes.now f × At nodes.now g }
    ensures { result ≡ ordering (order_of (node_at nodes.now f) (node_at nodes.now g)) }
{
    let i = f * NODE_WORDS;
    order_to(nodes[i], nodes, i + 1, nodes, g)
}

// The order of the test at f and another.
pub fn order_from(nodes: &[i64], f: usize, z: Node) -> Ordering
    requires { At nodes.now f }
    ensures { result ≡ ordering (order_of (node_at nodes.now f) z) }
{
    let i = f * NODE_WORDS;
    order_words(nodes[i], nodes, i + 1, z.kind, &z.n, 0)
}

// Condition k as a test: "1 to n for a condition now, 5 to 4+n for the next step's".
pub fn condition(k: usize) -> Node
    requires { k ≤ conditions_most + conditions_most }
    ensures { result ≡ condition_node k }
{
    let mut n = [0; NUMBERS];
    n[0] = k as i64;
    Node {
        kind: CONDITION,
        n,
        high: 0,
        low: 0,
    }
}

// The next step's condition k as a test.
pub fn later(k: usize) -> Node
    requires { k ≤ conditions_most }
    ensures { result ≡ later_node k }
{
    condition(4 + k)
}

// The test that a node names: a branch its own, a leaf its linear's, divided.
pub fn named(x: Node) -> Node
    requires { Nums x }
    ensures { result ≡ named_node x }
{
    if table::is_leaf(x.kind) {
        return Node {
            kind: LINEAR,
            n: divided(x.n),
            high: 0,
            low: 0,
        };
    }
    x
}

// The test of a choice: the next step's condition p, or the one that the node at p names.
pub fn test_at(nodes: &[i64], op: usize, p: usize) -> Node
    requires { Readable nodes.now op p }
    ensures { result ≡ test_node nodes.now op p }
{
    if op == CHOOSE_LATER {
        return later(p);
    }
    named(table::get(nodes, p))
}

// Whether that test stands in the table, as the root of the node at p.
pub fn stands_at(nodes: &[i64], op: usize, p: usize) -> bool
    requires { Readable nodes.now op p }
    ensures { result ≡ true → (op ≡ choose_later_code → ⊥) × (is_leaf (node_at nodes.now p).kind ≡ false) }
{
    op != CHOOSE_LATER && !table::is_leaf(nodes[p * NODE_WORDS])
}
