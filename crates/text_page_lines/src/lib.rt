// The lines of a page, written into a lent buffer.
#![tactic(auto)]

pub mod columns; // columns.rt: a whole number right-aligned
pub mod lines; // lines.rt: a line
