// The calls of the crates `index`, `reading`, `updating` and `guarding` for C and Rust: include/finder.h describes each function.
// An index is twelve words of 32 bits beside the nine slices. C lends these one by one, so the functions have many parameters, and make structs of them.
#![tactic(auto)]

mod deleting;
mod guard_calls;
mod guarded_delete;
mod inserting;
mod making;
mod readings;
mod search;
