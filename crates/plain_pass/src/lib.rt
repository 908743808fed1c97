// The pass over a model's commands to the leaf that a diagram comes to at a state, as definitions and laws; and what it is asked with.
#![tactic(auto)]

use whole::NUMBERS;

// What a diagram is given as: the command's byte, the action, the condition or level (0 where there is none).
#[derive(Clone, Copy, PartialEq, Eq)]
pub struct Slot {
    pub command: u8,
    pub action: u16,
    pub index: u8,
}

// A state, and a setting of the next step's conditions: bit k − 1 for condition k; the numerators, and the denominator as the last.
// Beyond the first `levels` the numerators are 0.
#[derive(Clone, Copy)]
pub struct Point {
    pub mask: u32,
    pub setting: u32,
    pub n: [i32; NUMBERS],
    pub levels: usize,
}
