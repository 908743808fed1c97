// The thin layer for a host in C: each export is a call and a copy.
#![tactic(auto)]

pub mod solving; // solving.rt: judging and solving a model
pub mod reading; // reading.rt: values at a state
pub mod texts; // texts.rt: names and listings
pub mod lookup; // lookup.rt: an action found by its name
pub mod pages; // pages.rt: pages
pub mod conversions; // conversions.rt: models in the other form
pub mod importing; // importing.rt: models written as text
pub mod paths; // paths.rt: paths that no state can take
pub mod prices; // prices.rt: whether an action stays best where prices move
pub mod totals; // totals.rt: two sites together
