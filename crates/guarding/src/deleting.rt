// Delete, if the guard admits it.
ghost use Rattle.std.specs.Prelude.{IfOk, Some, ◌||◌, ◌≡◌, min, ltb, length};
ghost use Rattle.slots.specs.Sizes.{limits};
ghost use Rattle.admission.specs.Lent.{SameLists};
ghost use Rattle.calls.specs.Refusals.{delete_over};
ghost use Rattle.index.specs.Lent.{slices_of, delete_slices_of, SameDeleteSlices};
ghost use Rattle.index.specs.Inner.Deciding.{Decided};
ghost use Rattle.updating.specs.Delete.{deleting_of};
ghost use Rattle.updating.specs.Inner.Emptying.{slot_delete};
ghost use Rattle.guarding.specs.Guarded.{Guards};
ghost use Rattle.guarding.specs.Inner.Testing.{report_tests};

use super::Guarded;
use super::assessing::{check_guard, lists_short, report_by};
use admission::Lists;
use index::refusals::check_index;
use index::{DeleteSlices, Guard, Index, Refusal, Slices};
use updating::{Deleting, by_slots, delete_batch, delete_over, with_fewer};

// Row 3, of the list for stats, of which there are at most as many as ids, and of the two for landmarks.
fn outputs_short(room: usize, ids: usize, lists: &Lists<'_>) -> bool
    ensures { result ≡ (ltb room ids || ltb (min (length lists.now.checked.now) (length lists.now.lost.now)) limits.landmarks) }
{
    room < ids || lists_short(lists)
}

// The guard, or the first of rows 1, 2, 3, 16, 6, 7, 8 and 11 that turns a guarded delete of slots back.
fn check_guarded(
    index: Index,
    slices: &Slices<'_, '_>,
    asked: &Deleting<'_>,
    room: usize,
    lists: &Lists<'_>,
    scratch: usize,
) -> Result<Guard, Refusal>
    ensures { Decided index (slices_of slices.now) (ltb room (length asked.now.names.now) || ltb (min (length lists.now.checked.now) (length lists.now.lost.now)) limits.landmarks) (report_tests index (delete_over limits (deleting_of asked.now)) scratch) result × IfOk result (λ g. index.guard ≡ Some g) }
{
    let wrong = outputs_short(room, asked.names.len(), lists);
    check_index(index, slices, wrong)?;
    if delete_over(asked) {
        return Err(Refusal::Limits);
    }
    check_guard(index, scratch)
}

// Deletes the live ones of the slots named if the report on that admits it.
fn guarded_slots(
    index: Index,
    slices: &mut DeleteSlices<'_>,
    asked: &Deleting<'_>,
    room: usize,
    lists: &mut Lists<'_>,
    scratch: &mut [u32],
) -> Result<Guarded, Refusal>
    ensures { Guards index (delete_slices_of slices.old) (slot_delete asked.now.names.now asked.now.repair_beam asked.now.repair_degree) room lists.old.checked.now lists.old.lost.now scratch.old (delete_slices_of slices.new) lists.new.checked.now lists.new.lost.now scratch.new result × SameDeleteSlices slices.old slices.new × SameLists lists.old lists.new }
{
    let lent = slices.read();
    let guard = check_guarded(index, &lent, asked, room, lists, scratch.len())?;
    let report = report_by(guard, index, &lent, asked.names, lists, scratch);
    if !report.admitted {
        return Ok(Guarded::Deferred(report));
    }
    let emptied = delete_batch(index, slices, asked, scratch);
    Ok(Guarded::Applied(with_fewer(index, emptied), report))
}

// Deletes the live slots that the names name if the report on that admits it. The landmarks checked and those lost are written to the front of two lists; where it
// is applied, the stats are left in the scratch as `delete` leaves them, for a list of `room` records.
pub fn guarded_delete(
    index: Index,
    slices: &mut DeleteSlices<'_>,
    asked: &Deleting<'_>,
    room: usize,
    lists: &mut Lists<'_>,
    scratch: &mut [u32],
) -> Result<Guarded, Refusal>
    ensures { Guards index (delete_slices_of slices.old) (deleting_of asked.now) room lists.old.checked.now lists.old.lost.now scratch.old (delete_slices_of slices.new) lists.new.checked.now lists.new.lost.now scratch.new result × SameDeleteSlices slices.old slices.new × SameLists lists.old lists.new }
{
    let mut slots = [0u32; 256];
    let by = by_slots(index, &slices.read(), *asked, &mut slots);
    guarded_slots(index, slices, &by, room, lists, scratch)
}
