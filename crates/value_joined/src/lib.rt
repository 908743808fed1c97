// "Two valleys, one total", as definitions and laws: everything is in specs/.
#![tactic(auto)]
