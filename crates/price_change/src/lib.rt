// "Does a price change matter?", as definitions and laws: everything is in specs/.
#![tactic(auto)]
