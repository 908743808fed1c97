// Two operations of a stage: a condition summed out, and an action's reward added.
#![tactic(auto)]

ghost use Rattle.std.specs.Prelude.{◌^◌, ◌<◌, ◌≤◌};
ghost use Rattle.theory.specs.Widths.{conditions_most, weights_most, actions_most};
ghost use Rattle.theory.specs.Computation.{bind};
ghost use Rattle.theory.specs.Rules as T;
ghost use Rattle.rule_node.specs.Nodes.{tree_at};
ghost use Rattle.rule_node.specs.Table.{Table, RuleRan};
ghost use Rattle.rule_node.specs.EntryMeaning.{rule_of};
ghost use Rattle.rule_unary.specs.Picks.{Picks};

use rule_apply::{Merge, merge};
use rule_node::codes::{NO_SIDE, YES_SIDE};
use rule_unary::rules::{complement, number, scale, side};
use table::{Made, Stop, Stopped};
use whole::limits::power_within;

// The weight diagram w times a side of f at the next step's condition k: 7 yes, 8 no.
fn weighted(
    nodes: &mut [i64],
    work: &mut [u32],
    cap: usize,
    count: usize,
    op: usize,
    w: usize,
    k: usize,
    f: usize,
) -> Result<Made, Stopped>
    requires { Table rule_of cap nodes.old work.old count × Picks op k × (w < count) × (f < count) }
    ensures { RuleRan rule_of cap nodes.old work.old count (bind (rule_of nodes.old count op f 0 k 0) (T.product (tree_at nodes.old count w))) nodes.new work.new result }
{
    let y = side(nodes, work, cap, count, op, f, k)?;
    merge(nodes, work, cap, y.count, Merge::Product, w, y.at)
}

// The next step's condition k summed out of f: w times the yes side, and weights less w times the no side.
pub fn expectation(
    nodes: &mut [i64],
    work: &mut [u32],
    cap: usize,
    count: usize,
    w: usize,
    k: usize,
    f: usize,
    weights: usize,
) -> Result<Made, Stopped>
    requires { Table rule_of cap nodes.old work.old count × (w < count) × (f < count) × (0 < k) × (k ≤ conditions_most) × (weights ≤ weights_most) }
    ensures { RuleRan rule_of cap nodes.old work.old count (T.expectation weights (tree_at nodes.old count w) k (tree_at nodes.old count f)) nodes.new work.new result }
{
    let p = weighted(nodes, work, cap, count, YES_SIDE, w, k, f)?;
    let v = complement(nodes, work, cap, p.count, w, weights)?;
    let q = weighted(nodes, work, cap, v.count, NO_SIDE, v.at, k, f)?;
    merge(nodes, work, cap, q.count, Merge::Sum, p.at, q.at)
}

// weights to the power of exponent, judged first, times the reward, added to f; the leaves numbered with the action.
pub fn add_reward(
    nodes: &mut [i64],
    work: &mut [u32],
    cap: usize,
    count: usize,
    reward: usize,
    f: usize,
    weights: u32,
    exponent: u32,
    action: usize,
) -> Result<Made, Stopped>
    requires { Table rule_of cap nodes.old work.old count × (reward < count) × (f < count) × (action ≤ actions_most) }
    ensures { RuleRan rule_of cap nodes.old work.old count (T.add_reward (weights ^ exponent) (tree_at nodes.old count reward) action (tree_at nodes.old count f)) nodes.new work.new result }
{
    let Some(z) = power_within(weights, exponent) else {
        return Err(Stopped {
            why: Stop::Over,
            count,
        });
    };
    let a = scale(nodes, work, cap, count, reward, z)?;
    let b = merge(nodes, work, cap, a.count, Merge::Sum, f, a.at)?;
    number(nodes, work, cap, b.count, b.at, action)
}
