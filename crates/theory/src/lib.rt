// Document 01 as definitions, and the theorems about them: everything is in specs/.
#![tactic(auto)]
