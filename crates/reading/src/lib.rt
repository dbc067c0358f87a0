// Calls that leave an index as it is: the readings, and search.
#![tactic(auto)]

mod readings;
mod searching;

pub use readings::{read, read_vector};
pub use searching::{Found, Searching, search};

// What can be read of an index as one number.
#[derive(Clone, Copy)]
pub enum Reading {
    Dim,
    Capacity,
    Degree,
    Alpha,
    Entry,
    Live,
    Mark(u32),
    Version(u32),
    // The figure number of a slot.
    Number(u32),
    // A slot, and a place among the live targets of its row.
    Target(u32, u32),
}

// What was read.
#[derive(Clone, Copy)]
pub enum Value {
    Number(u32),
    Alpha(f32),
    Version(u16),
}
