// The lines of the guard's calls, each compared with the stored answer.
#![tactic(auto)]

ghost use Rattle.std.specs.Prelude.{◌≡◌, IfOk};
ghost use Rattle.guards.specs.Inner.Calls.{Guards};

mod assessing;
mod deleting;
mod enabling;
mod reports;
mod statuses;

use assessing::assess;
use deleting::delete;
use enabling::enable;
use lines::prepare::{Arrays, State};
use lines::words::Guarding;
use statuses::status;
use text::{Differs, Numbers};

// Performs a line of the guard.
pub fn perform(
    what: Guarding,
    line: &mut Numbers<'_>,
    state: &mut State,
    arrays: &mut Arrays<'_>,
    scratch: &mut [u32],
) -> Result<(), Differs>
    ensures lent { state.new.lent ≡ state.old.lent }
    ensures read { IfOk result (λ _. Guards what line.old.rest line.new.rest state.old.index state.new.index) }
{
    match what {
        Guarding::Enable => enable(line, state, arrays, scratch)?,
        Guarding::Status => status(line, *state, arrays)?,
        Guarding::Assess => assess(line, *state, arrays, scratch)?,
        Guarding::Guarded => delete(line, state, arrays, scratch)?,
    }
    line.end()
}
