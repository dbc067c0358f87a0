// Delete batches: the rows of the deleted slots are taken, their marks cleared, the rows around them repaired, and the slots emptied.
#![tactic(auto)]

mod acts;
mod batch;
mod graph;
mod layout;
mod named;
mod plans;
mod stats;

pub use batch::{Emptied, delete_batch};
pub use graph::GraphMut;
pub use layout::stats_place;
pub use plans::Repair;
pub use stats::{DeleteStats, write_stats};
