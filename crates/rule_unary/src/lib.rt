// Rules that go over one diagram with a bare number: scale, shift, complement, number, and the sides of a condition.
#![tactic(auto)]

pub mod rules; // rules.rt: the rules
