// The words of leaves: what the rules compute of the leaves that they are given.
#![tactic(auto)]

pub mod numbers; // numbers.rt: linears added, subtracted and multiplied, as leaves
pub mod changes; // changes.rt: one leaf shifted, complemented, numbered
