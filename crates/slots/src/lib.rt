// Slots of an index in lent slices: their marks and versions, their rows, and what insert and delete write.
#![tactic(auto)]

mod graph;
pub mod limits;
pub mod marks;
mod ops;
pub mod parts;
pub mod rows;
pub mod scratch;

pub use graph::{Graph, Rows, RowsMut};
pub use ops::{fill, finish, kill};
