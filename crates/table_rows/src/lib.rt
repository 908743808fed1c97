// Whether a node of a lent table is as the layout has it.
#![tactic(auto)]

pub mod words; // words.rt: a node's words, judged as they are read

ghost use Rattle.std.specs.Prelude.{◌≡◌, ◌+◌, ◌-◌, ◌*◌, ◌≤◌, take, drop};
ghost use Rattle.whole.specs.Cases.{if};
ghost use Rattle.theory.specs.Widths.{node_words};
ghost use Rattle.theory.specs.Diagram.{zeros};
ghost use Rattle.theory.specs.Value.{node_linear, good_branches, good_leaf_row, good_condition_row, good_test_row, good_none_row};
ghost use Rattle.theory.specs.Valid.{small_linear};
ghost use Rattle.table_rows.specs.Row.{Inside, row_kind};
ghost use Rattle.table_rows.specs.declared.Kind.TheVariants.{Bad};

use self::words::{is_among, is_small, is_zero, kind};
use table::{HIGH, LOW, NODE_WORDS};
use whole::{COEFFICIENTS, NUMBERS};

// What a node's words say that it is. A leaf "none" has no numbers and no action.
#[derive(Clone, Copy)]
pub enum Kind {
    Leaf,
    Condition,
    Test,
    None,
    Bad,
}

// Node r's coefficients and constant lie within the limits.
fn small_linear(nodes: &[i64], r: usize) -> bool
    requires { Inside nodes.now r }
    ensures { result ≡ small_linear (node_linear nodes.now r) }
{
    let mut good = true;
    for i in 0..NUMBERS {
        good &= is_small(nodes, r, i + 1);
    }
    good
}

// So many words of node r, from one on, are all 0.
fn zeros_from(nodes: &[i64], r: usize, first: usize, count: usize) -> bool
    requires { Inside nodes.now r × (first + count ≤ node_words) }
    ensures { result ≡ zeros (take count (drop ((r - 1) * node_words + first) nodes.now)) }
{
    let mut good = true;
    for i in 0..count {
        good &= is_zero(nodes, r, first + i);
    }
    good
}

// Both branches lie below node r.
fn good_branches(nodes: &[i64], r: usize) -> bool
    requires { Inside nodes.now r }
    ensures { result ≡ good_branches nodes.now r }
{
    is_among(r - 1, nodes, r, HIGH) & is_among(r - 1, nodes, r, LOW)
}

fn good_leaf(a: u32, nodes: &[i64], r: usize) -> bool
    requires { Inside nodes.now r }
    ensures { result ≡ good_leaf_row a nodes.now r }
{
    small_linear(nodes, r) & is_among(a as usize, nodes, r, HIGH) & is_zero(nodes, r, LOW)
}

fn good_condition(n: u32, nodes: &[i64], r: usize) -> bool
    requires { Inside nodes.now r }
    ensures { result ≡ good_condition_row n nodes.now r }
{
    is_among(n as usize, nodes, r, 1)
        & zeros_from(nodes, r, 2, COEFFICIENTS)
        & good_branches(nodes, r)
}

fn good_test(nodes: &[i64], r: usize) -> bool
    requires { Inside nodes.now r }
    ensures { result ≡ good_test_row nodes.now r }
{
    small_linear(nodes, r) & good_branches(nodes, r)
}

// Behind its kind all is 0.
fn good_none(nodes: &[i64], r: usize) -> bool
    requires { Inside nodes.now r }
    ensures { result ≡ good_none_row nodes.now r }
{
    zeros_from(nodes, r, 1, NODE_WORDS - 1)
}

fn kind_if(good: bool, kind: Kind) -> Kind
    ensures { result ≡ if good kind Bad }
{
    if good { kind } else { Kind::Bad }
}

// The kind of node r, judged whole.
pub fn row_kind(n: u32, a: u32, nodes: &[i64], r: usize) -> Kind
    ensures { result ≡ row_kind n a nodes.now r }
{
    if r == 0 || nodes.len() / NODE_WORDS < r {
        return Kind::Bad;
    }
    match kind(nodes, r) {
        0 => kind_if(good_leaf(a, nodes, r), Kind::Leaf),
        1 => kind_if(good_condition(n, nodes, r), Kind::Condition),
        2 => kind_if(good_test(nodes, r), Kind::Test),
        3 => kind_if(good_none(nodes, r), Kind::None),
        _ => Kind::Bad,
    }
}
