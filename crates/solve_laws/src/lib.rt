// Document 01's operations, carried to the node table: everything is in specs/.
#![tactic(auto)]
