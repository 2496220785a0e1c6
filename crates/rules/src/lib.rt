// Nothing.
#![tactic(auto)]
