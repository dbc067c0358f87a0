// Insert batches: vectors go into the lowest free slots, chunk by chunk; of a chunk all plans are made before its rows are written.
#![tactic(auto)]

mod batch;
mod chains;
mod chunk;
mod filling;
mod graph;
mod inserter;
mod layout;
mod outgoing;
mod planning;
mod targets;

pub use batch::insert_batch;
pub use graph::{GraphMut, Selection};
