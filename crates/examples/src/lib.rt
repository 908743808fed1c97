// Cases computed from the bytes on: everything is in specs/.
#![tactic(auto)]
