// The model that a text becomes, as definitions and theorems: everything is in specs/.
#![tactic(auto)]
