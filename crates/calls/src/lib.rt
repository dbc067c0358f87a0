// The calls as definitions: when each is turned back and what it does, and the main theorem. Their code is in crate `index`.
#![tactic(auto)]
