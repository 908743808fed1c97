// What is proved of document 01's definitions, for readers: everything is in specs/.
#![tactic(auto)]
