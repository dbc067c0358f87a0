// An index in twelve words, and what a call on it writes for C: its status, the words of the index left, and the numbers of the answer.
#![tactic(auto)]

mod answers;
mod changing;
mod deleting;
mod guard_calls;
mod guarded_delete;
mod index_words;
mod readings;

pub use answers::put;
pub use changing::{put_changed, put_created};
pub use deleting::{Left, delete_words};
pub use guard_calls::{put_enabled, put_report, put_status};
pub use guarded_delete::{Written, guarded_words};
pub use index_words::index_from;
pub use readings::{put_alpha, read_number, read_value};
