// The definition of `delete_batch`; its code is in the crates `links` and `deletion`.
#![tactic(auto)]
