// Two leaves combined.
#![tactic(auto)]

ghost use Rattle.std.specs.Prelude.{◌≡◌, ◌-ℤ◌};
ghost use Rattle.table.specs.Table.{node_at};
ghost use Rattle.theory.specs.Diagram.{zeros};
ghost use Rattle.theory.specs.Rules.{leaf_sum, leaf_product, leaf_best};
ghost use Rattle.rule_node.specs.Nodes.{linear_held, constant_of, leaf_of};
ghost use Rattle.rule_node.specs.Table.{Bare, Grew};
ghost use Rattle.rule_leaves.specs.Leaves.{AtLeaf, AtLinear, less_node};
ghost use Rattle.rule_apply_leaves.specs.Combined.{code_of, leaf_rule};
ghost use Rattle.rule_apply_leaves.specs.Constants.{AtNumbers, better_constant};

use rule_leaves::numbers::{constant, decided, less, plus, product, stays_none};
use rule_node::codes::{BEST, PRODUCT, SUM};
use rule_node::making::{join_test, make_leaf, within};
use rule_tests::named;
use table::{Made, NODE_WORDS, Stop, Stopped, none_at};
use whole::COEFFICIENTS;
use whole::limits::{LIMIT, mag};

// The rules that merge two diagrams.
#[derive(Clone, Copy)]
pub enum Merge {
    Sum,
    Product,
    Best,
}

impl Merge {
    // The rule's number, the first word of its entries in the computed cache.
    pub fn code(self) -> usize
        ensures { result ≡ code_of self }
    {
        match self {
            Merge::Sum => SUM,
            Merge::Product => PRODUCT,
            Merge::Best => BEST,
        }
    }
}

// The sum; with the leaf "none" it is that leaf.
fn sum_leaves(
    nodes: &mut [i64],
    work: &mut [u32],
    cap: usize,
    count: usize,
    f: usize,
    g: usize,
) -> Result<Made, Stopped>
    requires { Bare cap nodes.old work.old count × AtLeaf nodes.old count f × AtLeaf nodes.old count g }
    ensures { Grew cap nodes.old work.old count (leaf_sum (leaf_of (node_at nodes.old f)) (leaf_of (node_at nodes.old g))) nodes.new work.new result }
{
    if none_at(nodes, f) {
        return Ok(Made { at: f, count });
    }
    if none_at(nodes, g) {
        return Ok(Made { at: g, count });
    }
    let s = plus(table::get(nodes, f), table::get(nodes, g));
    make_leaf(nodes, work, cap, count, s)
}

// The first leaf's constant times the second leaf, which stays where it is "none" and the constant is not 0.
fn product_leaves(
    nodes: &mut [i64],
    work: &mut [u32],
    cap: usize,
    count: usize,
    f: usize,
    g: usize,
) -> Result<Made, Stopped>
    requires { Bare cap nodes.old work.old count × AtLeaf nodes.old count f × AtLeaf nodes.old count g }
    ensures { Grew cap nodes.old work.old count (leaf_product (leaf_of (node_at nodes.old f)) (leaf_of (node_at nodes.old g))) nodes.new work.new result }
{
    let k = constant(table::get(nodes, f));
    if stays_none(nodes, k, g) {
        return Ok(Made { at: g, count });
    }
    let s = product(k, table::get(nodes, g));
    make_leaf(nodes, work, cap, count, s)
}

// Whether the linears at f and g differ by a constant: their coefficients are compared where they stand, as no
// difference need be worked out for that.
fn differ_by_constant(nodes: &[i64], f: usize, g: usize) -> bool
    requires { AtNumbers nodes.now f × AtNumbers nodes.now g }
    ensures { result ≡ zeros (linear_held (less_node (node_at nodes.now g) (node_at nodes.now f))).coeffs }
{
    let i = f * NODE_WORDS + 1;
    let j = g * NODE_WORDS + 1;
    nodes[i..i + COEFFICIENTS] == nodes[j..j + COEFFICIENTS]
}

// The better leaf of two linears that differ by a constant, the first where they are equal. Of the difference only the
// constant can lie beyond the limits.
fn best_constants(nodes: &[i64], count: usize, f: usize, g: usize) -> Result<Made, Stopped>
    requires { AtNumbers nodes.now f × AtNumbers nodes.now g }
    ensures { result ≡ better_constant count f g (constant_of (node_at nodes.now g) -ℤ constant_of (node_at nodes.now f)) }
{
    let p = nodes[f * NODE_WORDS + 1 + COEFFICIENTS];
    let q = nodes[g * NODE_WORDS + 1 + COEFFICIENTS];
    let d = q - p;
    if mag(d) > LIMIT {
        return Err(Stopped {
            why: Stop::Over,
            count,
        });
    }
    Ok(Made {
        at: decided(d, f, g),
        count,
    })
}

// The better leaf of two linears, the first where they are equal; a test of the difference where neither always is.
fn best_linears(
    nodes: &mut [i64],
    work: &mut [u32],
    cap: usize,
    count: usize,
    f: usize,
    g: usize,
) -> Result<Made, Stopped>
    requires { Bare cap nodes.old work.old count × AtLinear nodes.old count f × AtLinear nodes.old count g }
    ensures { Grew cap nodes.old work.old count (leaf_best (leaf_of (node_at nodes.old f)) (leaf_of (node_at nodes.old g))) nodes.new work.new result }
{
    // Mostly the two differ by a constant: then it alone is worked out.
    if differ_by_constant(nodes, f, g) {
        return best_constants(nodes, count, f, g);
    }
    let d = less(table::get(nodes, g), table::get(nodes, f));
    if within(d) {
        return join_test(nodes, work, cap, count, named(d), f, g);
    }
    Err(Stopped {
        why: Stop::Over,
        count,
    })
}

// The better leaf: "none" loses to any other, and no difference is worked out.
fn best_leaves(
    nodes: &mut [i64],
    work: &mut [u32],
    cap: usize,
    count: usize,
    f: usize,
    g: usize,
) -> Result<Made, Stopped>
    requires { Bare cap nodes.old work.old count × AtLeaf nodes.old count f × AtLeaf nodes.old count g }
    ensures { Grew cap nodes.old work.old count (leaf_best (leaf_of (node_at nodes.old f)) (leaf_of (node_at nodes.old g))) nodes.new work.new result }
{
    let first_loses = none_at(nodes, f);
    if first_loses {
        return Ok(Made { at: g, count });
    }
    let second_loses = none_at(nodes, g);
    if second_loses {
        return Ok(Made { at: f, count });
    }
    best_linears(nodes, work, cap, count, f, g)
}

// By the rule.
pub fn combine(
    nodes: &mut [i64],
    work: &mut [u32],
    cap: usize,
    count: usize,
    rule: Merge,
    f: usize,
    g: usize,
) -> Result<Made, Stopped>
    requires { Bare cap nodes.old work.old count × AtLeaf nodes.old count f × AtLeaf nodes.old count g }
    ensures { Grew cap nodes.old work.old count (leaf_rule rule (leaf_of (node_at nodes.old f)) (leaf_of (node_at nodes.old g))) nodes.new work.new result }
{
    match rule {
        Merge::Sum => sum_leaves(nodes, work, cap, count, f, g),
        Merge::Product => product_leaves(nodes, work, cap, count, f, g),
        Merge::Best => best_leaves(nodes, work, cap, count, f, g),
    }
}
