// The calls of the guard: enabling it, reading its status, assessing a delete, and deleting if it admits that.
#![tactic(auto)]

mod assessing;
mod deleting;
mod enabling;
mod statuses;

use admission::Report;
pub use assessing::assess_delete;
pub use deleting::guarded_delete;
pub use enabling::enable_guard;
use index::Index;
pub use statuses::guard_status;
use updating::Changed;

// The status of a guard; all 0 where it is off. `enabled` stands beside the numbers, and not an `Option` of them: document 01's status has these five, and C gets
// them so.
#[derive(Clone, Copy, Default)]
pub struct Status {
    pub enabled: bool,
    pub pool: u32,
    pub live: u32,
    pub count: u32,
    pub beam: u32,
}

// An index whose guard is on, with the guard's status.
#[derive(Clone, Copy)]
pub struct Enabled {
    pub index: Index,
    pub status: Status,
}

// A guarded delete: what it leaves, and the report that admits it; or the report that does not.
#[derive(Clone, Copy)]
pub enum Guarded {
    Applied(Changed, Report),
    Deferred(Report),
}
