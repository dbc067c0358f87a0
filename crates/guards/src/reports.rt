// The numbers and the lists of a report.
ghost use Rattle.std.specs.Prelude.{IfOk};
ghost use Rattle.guards.specs.Inner.Answers.{Reported};

use admission::Report;
use slots::rows::BLANK;
use text::{Differs, Numbers};

// Passes the eight numbers of a report, blank for no entry, the landmarks checked and those lost.
pub fn expect_report(
    line: &mut Numbers<'_>,
    r: Report,
    checked: &[u32],
    lost: &[u32],
) -> Result<(), Differs>
    ensures { IfOk result (λ _. Reported line.old.rest line.new.rest r checked.now lost.now) }
{
    line.expect_all(&[
        u32::from(r.admitted),
        r.requested,
        r.entry.unwrap_or(BLANK),
        r.checked,
        r.baseline,
        r.residual,
        r.lost,
        r.supplemental,
    ])?;
    line.expect_first(r.checked as usize, checked)?;
    line.expect_first(r.lost as usize, lost)
}
