// The text of a plan, written into a lent buffer from any place of it.
#![tactic(auto)]

pub mod texts; // texts.rt: all lines of a plan
