// Ranges of the state that the code relies on; they stand in specs/.
#![tactic(auto)]
