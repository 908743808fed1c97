// A rule of one diagram and a bare number at one node: what it makes of a leaf, and what it goes on with at a branch.
#![tactic(auto)]

pub mod halves; // halves.rt: an i64 in two words of the cache
pub mod leaf; // leaf.rt: what a rule makes of a leaf
pub mod ways; // ways.rt: what a rule goes on with at a branch

// What a rule goes on with at a node: nothing at a leaf, the branch that it picks, or else high and low.
#[derive(Clone, Copy)]
pub enum Way {
    End,
    Pick(usize),
    Both(usize, usize),
}
