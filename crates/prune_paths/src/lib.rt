// "Paths that no state can take", as definitions and laws: everything is in specs/.
#![tactic(auto)]
