// The numbers of a model text, as definitions: everything is in specs/.
#![tactic(auto)]
