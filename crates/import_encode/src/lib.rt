// The bytes of the model that a text becomes, as theorems: everything is in specs/.
#![tactic(auto)]
