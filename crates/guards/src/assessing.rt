// Lines `assess`.
ghost use Rattle.std.specs.Prelude.{IfOk};
ghost use Rattle.lines.specs.Inner.Answers.{Answered};
ghost use Rattle.guards.specs.Inner.Answers.{Reported};
ghost use Rattle.guards.specs.Inner.Calls.{Assessed};

use super::reports::expect_report;
use admission::{Lists, Report};
use index::Refusal;
use lines::answers::expect_done;
use lines::prepare::{Arrays, State, part, part_mut};
use text::{Differs, Numbers};

// Passes the answer to an assessment.
fn expect_assessed(
    line: &mut Numbers<'_>,
    assessed: Result<Report, Refusal>,
    checked: &[u32],
    lost: &[u32],
) -> Result<(), Differs>
    ensures { IfOk result (λ _. Answered (λ left rest report. Reported left rest report checked.now lost.now) line.old.rest line.new.rest assessed) }
{
    let Some(report) = expect_done(line, assessed)? else {
        return Ok(());
    };
    expect_report(line, report, checked, lost)
}

// Performs a line `assess`.
pub fn assess(
    line: &mut Numbers<'_>,
    state: State,
    arrays: &Arrays<'_>,
    scratch: &mut [u32],
) -> Result<(), Differs>
    ensures { IfOk result (λ _. Assessed line.old.rest line.new.rest) }
{
    let mut checked = [0u32; 1024];
    let mut lost = [0u32; 1024];
    let lent = state.lent;
    let slices = arrays.slices(lent);
    let ids = part(arrays.rows, lent.rows);
    let mut lists = Lists {
        checked: part_mut(&mut checked, lent.slots),
        lost: part_mut(&mut lost, lent.dists),
    };
    let scratch = part_mut(scratch, lent.words);
    let assessed = guarding::assess_delete(state.index, &slices, ids, &mut lists, scratch);
    expect_assessed(line, assessed, &checked, &lost)
}
