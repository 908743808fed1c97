// From item to item of a text that is known to be in the grammar: the site, each item's opening, where it ends, and names.
#![tactic(auto)]

pub mod name;
pub mod number;
pub mod opening;
pub mod scan;
pub mod site;
pub mod steps;
