// Reading a value and an action from lent tables.
#![tactic(auto)]

pub mod states; // states.rt: accepted states, and what tests and linears come to at them
mod walks; // walks.rt: the walk from a root to a leaf
pub mod reading; // reading.rt: the value and the action at a state

use whole::NUMBERS;

// A state as it is asked: bit i-1 of the mask for condition i; the numerators of the levels, and the denominator as the last.
#[derive(Clone, Copy)]
pub struct Asked {
    pub mask: u32,
    pub n: [i32; NUMBERS],
}

// A refusal's number and place, both 0 where there is none; then the action and the numerator.
#[derive(Clone, Copy)]
pub struct Value {
    pub number: u32,
    pub place: usize,
    pub action: u32,
    pub numerator: whole::Numerator,
}
