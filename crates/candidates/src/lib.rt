// Candidates: a distance and a slot. Their order and the quotient of two distances; and lists of them in lent words.
#![tactic(auto)]

mod candidate;
mod list;
mod sort;

pub use candidate::{Candidate, LARGEST, comes_before, quotient};
pub use list::{
    copy_ids, dist_at, has_id, id_at, insert_ordered, keep_first, keep_valid, pack_ids, put,
};
pub use sort::sort_by_distance;
