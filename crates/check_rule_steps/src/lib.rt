// Rules on a table step by step, for test programs: each step a row of four numbers, each outcome a line.
#![tactic(auto)]

mod rules; // rules.rt: one step on the table
mod lines; // lines.rt: rows read, outcomes printed
pub mod runs; // runs.rt: all rows from an empty table

// A step: the rule's number, the nodes it works on, its numbers as written.
#[derive(Clone, Copy)]
pub struct Step {
    pub op: usize,
    pub f: usize,
    pub g: usize,
    pub p: usize,
    pub b: i64,
    pub c: i64,
}

// The numbers of a rule.
#[derive(Clone, Copy)]
pub struct Numbers {
    pub p: usize,
    pub q: usize,
}
