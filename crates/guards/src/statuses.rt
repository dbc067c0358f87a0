// Lines `status`, and the numbers of a status.
ghost use Rattle.std.specs.Prelude.{IfOk};
ghost use Rattle.text.specs.Inner.Text.{ReadsAll};
ghost use Rattle.guards.specs.Inner.Answers.{status_numbers};
ghost use Rattle.guards.specs.Inner.Calls.{StatusRead};

use guarding::Status;
use lines::answers::expect_done;
use lines::prepare::{Arrays, State};
use text::{Differs, Numbers};

// Passes the five numbers of a status.
pub fn expect_status(line: &mut Numbers<'_>, s: Status) -> Result<(), Differs>
    ensures { IfOk result (λ _. ReadsAll line.old.rest line.new.rest (status_numbers s)) }
{
    line.expect_all(&[u32::from(s.enabled), s.pool, s.live, s.count, s.beam])
}

// Performs a line `status`.
pub fn status(line: &mut Numbers<'_>, state: State, arrays: &Arrays<'_>) -> Result<(), Differs>
    ensures { IfOk result (λ _. StatusRead line.old.rest line.new.rest) }
{
    let standing = guarding::guard_status(state.index, &arrays.slices(state.lent));
    let Some(s) = expect_done(line, standing)? else {
        return Ok(());
    };
    expect_status(line, s)
}
