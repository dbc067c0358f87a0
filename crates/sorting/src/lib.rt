// Places of a list of keys: sorted by their keys, and looked up by a key.
#![tactic(auto)]

mod look_up;
mod order;

pub use look_up::below;
pub use order::{settle, sort};
