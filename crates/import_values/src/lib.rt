// The frames of a reading's bytes hold the reading's linears, as theorems: everything is in specs/.
#![tactic(auto)]
