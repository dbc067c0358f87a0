// The definitions of `insert_batch`, whose code is the crate `insertion`, and of the entry that an insert begins with (`first_entry`,
// `insert_entering`), whose code is in the crate `updating`.
#![tactic(auto)]
