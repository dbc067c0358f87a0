// Assessing a delete.
ghost use Rattle.std.specs.Prelude.{IfOk, Some, ◌≡◌, min, ltb, length, take};
ghost use Rattle.vectors.specs.Weights.{Weighing};
ghost use Rattle.slots.specs.Sizes.{limits};
ghost use Rattle.admission.specs.Lent.{SameLists};
ghost use Rattle.admission.specs.Inner.Reports.{Assessable, Assessed as Reported};
ghost use Rattle.calls.specs.Refusals.{first_of};
ghost use Rattle.index.specs.Index.{arrays_of};
ghost use Rattle.index.specs.Lent.{slices_of};
ghost use Rattle.index.specs.Inner.Deciding.{Decided};
ghost use Rattle.index.specs.Refusal.{turned_back};
ghost use Rattle.guarding.specs.Guarding.{assessing, report_outputs, Assesses};
ghost use Rattle.guarding.specs.Inner.Testing.{guard_tests, report_tests};

use admission::{Lists, Report, assess_delete_admission};
use guard::Config;
use index::refusals::{check_index, scratch_short};
use index::{Guard, Index, Refusal, Slices};
use slots::limits;

// Row 3, of the two lists for landmarks: one of them is shorter than the largest landmark count.
#[tactic(auto, unfolding(slots::specs::Sizes::limits))]
pub fn lists_short(lists: &Lists<'_>) -> bool
    ensures { result ≡ ltb (min (length lists.now.checked.now) (length lists.now.lost.now)) limits.landmarks }
{
    lists.checked.len().min(lists.lost.len()) < limits::LANDMARKS as usize
}

// The guard, or the first of rows 8 and 11 that turns a call for a report back.
pub fn check_guard(index: Index, scratch: usize) -> Result<Guard, Refusal>
    ensures { (turned_back result ≡ first_of (guard_tests index scratch)) × IfOk result (λ g. index.guard ≡ Some g) }
{
    if scratch_short(index.capacity, scratch) {
        return Err(Refusal::Scratch);
    }
    index.guard.ok_or(Refusal::GuardOff)
}

// The guard, or the first of rows 1, 2, 3, 16, 6, 7, 8 and 11 that turns an assessment back.
#[tactic(auto, unfolding(slots::specs::Sizes::limits))]
fn check_assess(
    index: Index,
    slices: &Slices<'_, '_>,
    ids: &[u32],
    lists: &Lists<'_>,
    scratch: usize,
) -> Result<Guard, Refusal>
    ensures { Decided index (slices_of slices.now) (ltb (min (length lists.now.checked.now) (length lists.now.lost.now)) limits.landmarks) (report_tests index (ltb limits.ids (length ids.now)) scratch) result × IfOk result (λ g. index.guard ≡ Some g) }
{
    check_index(index, slices, lists_short(lists))?;
    if (limits::IDS as usize) < ids.len() {
        return Err(Refusal::Limits);
    }
    check_guard(index, scratch)
}

// The report, by a guard that is on.
pub fn report_by<'a>(
    guard: Guard,
    index: Index,
    slices: &Slices<'a, 'a>,
    ids: &[u32],
    lists: &mut Lists<'_>,
    scratch: &mut [u32],
) -> Report
    requires { Assessable (arrays_of index (slices_of slices.now)) guard.config.count guard.config.sample guard.config.beam slices.now.pool.now guard.pool ids.now lists.old.checked.now lists.old.lost.now scratch.old
        × Weighing slices.now.weights.now × (length slices.now.weights.now ≡ index.dim) }
    ensures { Reported (arrays_of index (slices_of slices.now)) index.entry guard.config.count guard.config.sample guard.config.beam (take guard.pool slices.now.pool.now) ids.now lists.old.checked.now lists.new.checked.now lists.old.lost.now lists.new.lost.now result × SameLists lists.old lists.new }
{
    let graph = slices.graph(index);
    let pool = &slices.pool[..guard.pool as usize];
    let settings = Config::<usize>::from(guard.config);
    assess_delete_admission(&graph, index.entry, settings, pool, ids, lists, scratch)
}

// The report on deleting `ids`; the landmarks checked and those lost are written to the front of two lists.
pub fn assess_delete<'a>(
    index: Index,
    slices: &Slices<'a, 'a>,
    ids: &[u32],
    lists: &mut Lists<'_>,
    scratch: &mut [u32],
) -> Result<Report, Refusal>
    ensures { Assesses index (slices_of slices.now) (assessing ids.now) (report_outputs lists.old.checked.now lists.old.lost.now) scratch.old (report_outputs lists.new.checked.now lists.new.lost.now) scratch.new result × SameLists lists.old lists.new }
{
    let guard = check_assess(index, slices, ids, lists, scratch.len())?;
    Ok(report_by(guard, index, slices, ids, lists, scratch))
}
