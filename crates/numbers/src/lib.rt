// Figure numbers: a number for each slot, and the summary, which names the live slots by rising number.
#![tactic(auto)]

mod fits;
mod fresh;
mod naming;
mod summary;
mod writing;

pub use fits::labels_bad;
pub use fresh::repeated;
pub use naming::Labels;
pub use summary::{enter, strike, summarize};
pub use writing::{copy_numbers, write_numbers};
