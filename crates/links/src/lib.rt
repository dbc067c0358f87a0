// Repair links: of each plan of a delete, applied to the stored rows as they are found.
#![tactic(auto)]

mod link;
mod plan;
mod sources;
mod span;

pub use plan::{Table, apply_plans, attempted};
