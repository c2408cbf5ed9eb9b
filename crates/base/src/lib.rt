// Definitions and laws that every crate above uses; they stand in specs/.
#![tactic(auto)]
