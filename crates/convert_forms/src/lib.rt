// A model in another form: how long it is, and its bytes.
#![tactic(auto)]

pub mod layouts; // layouts.rt: what differs between the forms of a command
pub mod writing; // writing.rt: the length of a model in another form, and its bytes
