// The answers of the two calls about names, as bytes at the start of a lent slice.
#![tactic(auto)]

pub mod names; // names.rt: a name's answer
pub mod lookup; // lookup.rt: the answer of an action found by its name
