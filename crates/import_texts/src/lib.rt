// The run over a whole text judges the text's numbers, as theorems: everything is in specs/.
#![tactic(auto)]
