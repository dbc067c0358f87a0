// Calls that change the graph: insert and delete.
#![tactic(auto)]

mod deleting;
mod inserting;
mod names;

pub use deleting::{Deleting, delete, delete_batch, delete_over, with_fewer};
use index::Index;
pub use inserting::{Inserting, insert};
pub use names::{Naming, by_slots};

// The index that an insert or a delete leaves, and how many slots it filled or emptied.
#[derive(Clone, Copy)]
pub struct Changed {
    pub index: Index,
    pub count: u32,
}
