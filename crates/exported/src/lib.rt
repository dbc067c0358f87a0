// Demand 3 of the code: what runs of the functions of crate `finder` put into the caller's hand. It has no code.
#![tactic(auto)]
