// The items of a text one behind another, and how a walk over the text's bytes meets them, as definitions and theorems: everything is in specs/.
#![tactic(auto)]
