// From where a condition, a case or an else begins: the atom or the result that comes first, with the signs of the brackets that are opened on the way.
#![tactic(auto)]

pub mod behind;
pub mod bracket;
pub mod start;
pub mod turning;
