// Choosing landmarks on lent slices: which slots stay, a sample of them, and the farthest of the sample.
#![tactic(auto)]

mod choose;
mod sample;
mod select;
mod staying;

pub use sample::Free;
pub use select::select_landmarks;
pub use staying::stays;
