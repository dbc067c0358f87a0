// The routability guard on lent slices: the landmark pool, trial walks and the report.
#![tactic(auto)]

mod entry;
mod pool;
mod report;
mod trials;

pub use entry::residual_entry;
pub use pool::{landmark_pool, live_landmarks};
pub use report::{Lists, Report, assess_delete_admission};
