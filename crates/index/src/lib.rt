// An index by value and the nine slices that are lent beside it: making one, and the tests that all calls share.
#![tactic(auto)]

mod making;
pub mod refusals;
mod slices;

use guard::Config;
pub use making::{Making, create};
pub use refusals::scratch_words;
pub use slices::{DeleteSlices, EnableSlices, InsertSlices, NewSlices, Slices, space};

// A guard that is on: its settings, and the length of its landmark pool.
#[derive(Clone, Copy)]
pub struct Guard {
    pub config: Config,
    pub pool: u32,
}

// An index without its nine slices; its guard may be off.
#[derive(Clone, Copy)]
pub struct Index {
    pub dim: u32,
    pub capacity: u32,
    pub degree: u32,
    pub alpha: f32,
    pub entry: u32,
    pub live: u32,
    pub guard: Option<Guard>,
}

// The lengths of the nine slices.
#[derive(Clone, Copy, PartialEq)]
pub struct Lengths {
    pub vectors: usize,
    pub targets: usize,
    pub edges: usize,
    pub versions: usize,
    pub marks: usize,
    pub pool: usize,
    pub numbers: usize,
    pub summary: usize,
    pub weights: usize,
}

// Why a call is turned back: the rows of document 01's table, by their numbers, and document 02's 15 and 16. `refusal as u32` is the number.
#[derive(Clone, Copy, PartialEq, Eq, Debug)]
pub enum Refusal {
    // dim, capacity or degree
    Sizes = 1,
    Alpha = 2,
    // of the slices lent, the query, the lists for answers
    Lengths = 3,
    // more vectors given than slots
    Count = 4,
    // a row or the entry names no slot given
    Names = 5,
    // live count, entry, guard, figure numbers do not fit the slices
    Index = 6,
    // beams, degrees, lists of names, settings
    Limits = 7,
    Scratch = 8,
    // no whole vectors
    Bytes = 9,
    // fewer slots are free than vectors given
    Full = 10,
    GuardOff = 11,
    NoneLive = 12,
    NoLandmark = 13,
    // a figure number is 0, taken, or twice in the list
    Numbers = 15,
    // a weight is outside its range, or their sum is over its limit
    Weights = 16,
}
