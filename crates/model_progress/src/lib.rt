// "The site model": what is known after some commands, which rule the next one breaks, and what it leaves.
#![tactic(auto)]

pub mod given;
pub mod operands;
pub mod refusals;
pub mod states;

use model_facts::Seen;

// m, n, A and W.
#[derive(Clone, Copy)]
pub struct Site {
    pub levels: u8,
    pub conditions: u8,
    pub actions: u16,
    pub weights: u8,
}

// The commands so far, but for what has been given: that stands in flags, which are lent.
#[derive(Clone, Copy)]
pub struct Progress {
    pub begun: bool,
    pub site: Site,
    pub seen: Seen,
}
