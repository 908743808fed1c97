// What a sum of a text means at a state, as definitions and theorems: everything is in specs/.
#![tactic(auto)]
