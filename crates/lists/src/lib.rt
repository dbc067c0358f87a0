// Definitions and laws on lists that the other crates share. There is no code here.
#![tactic(auto)]
