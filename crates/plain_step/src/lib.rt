// A step of a model: the weight of a setting of the next conditions, and the state after an action and a setting.
#![tactic(auto)]

pub mod sites; // sites.rt: the numbers of the model's site
pub mod weighing; // weighing.rt: the weight of a setting
pub mod moves; // moves.rt: the state after an action and a setting
