// Where the commands of a text are found in the text itself, as definitions and theorems: everything is in specs/.
#![tactic(auto)]
