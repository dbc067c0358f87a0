// The lines of calls that make or change an index, each compared with the stored answer.
#![tactic(auto)]

ghost use Rattle.std.specs.Prelude.{◌≡◌, IfOk};
ghost use Rattle.changes.specs.Inner.Calls.{Changes};

mod deleting;
mod inserting;
mod making;

use deleting::delete;
pub use deleting::{asked, expect_emptied};
use inserting::insert;
use lines::prepare::{Arrays, State};
use lines::words::Changing;
use making::make;
use text::{Differs, Numbers};

// Performs a line that makes or changes an index.
pub fn perform(
    what: Changing,
    line: &mut Numbers<'_>,
    state: &mut State,
    arrays: &mut Arrays<'_>,
    scratch: &mut [u32],
) -> Result<(), Differs>
    ensures lent { state.new.lent ≡ state.old.lent }
    ensures read { IfOk result (λ _. Changes what line.old.rest line.new.rest state.old.index state.new.index) }
{
    match what {
        Changing::Make => make(line, state, arrays)?,
        Changing::Insert => insert(line, state, arrays, scratch)?,
        Changing::Delete => delete(line, state, arrays, scratch)?,
    }
    line.end()
}
