// Delete.
ghost use Rattle.std.specs.Prelude.{◌≡◌, ◌≤◌, ltb, length};
ghost use Rattle.vectors.specs.Weights.{Weighing};
ghost use Rattle.slots.specs.Sizes.{limits};
ghost use Rattle.numbers.specs.Inner.Listed.{Struck};
ghost use Rattle.deletion.specs.Batch.{Deletable, BatchDeleted};
ghost use Rattle.calls.specs.Refusals.{delete_over};
ghost use Rattle.index.specs.Index.{arrays_of};
ghost use Rattle.index.specs.Lent.{slices_of, delete_slices_of, SameDeleteSlices};
ghost use Rattle.index.specs.Inner.Deciding.{Decided};
ghost use Rattle.updating.specs.Delete.{deleting_of, Deletes};
ghost use Rattle.updating.specs.Inner.Emptying.{delete_tests, slot_delete, fewer};

use super::Changed;
use super::names::{Naming, by_slots};
use deletion::{Emptied, GraphMut, Repair};
use index::refusals::{check_index, scratch_short};
use index::{DeleteSlices, Index, Refusal, Slices};
use numbers::strike;
use slots::limits;

// What a delete asks for: the slots or numbers it names, and how rows are repaired.
#[derive(Clone, Copy)]
pub struct Deleting<'a> {
    pub names: &'a [u32],
    pub naming: Naming,
    pub repair_beam: u32,
    pub repair_degree: u32,
}

// Row 7: the repair beam, the repair degree or the number of names is over its limit.
#[tactic(auto, unfolding(slots::specs::Sizes::limits))]
pub fn delete_over(asked: &Deleting<'_>) -> bool
    ensures { result ≡ delete_over limits (deleting_of asked.now) }
{
    limits::REPAIR_BEAM < asked.repair_beam
        || limits::REPAIR_DEGREE < asked.repair_degree
        || (limits::IDS as usize) < asked.names.len()
}

// Whether one of rows 1, 2, 3, 16, 6, 7 and 8 turns a delete of slots back: the first. `room` is the length of the list for its stats.
fn check_delete(
    index: Index,
    slices: &Slices<'_, '_>,
    asked: &Deleting<'_>,
    room: usize,
    scratch: usize,
) -> Result<(), Refusal>
    ensures { Decided index (slices_of slices.now) (ltb room (length asked.now.names.now)) (delete_tests index (deleting_of asked.now) scratch) result }
{
    check_index(index, slices, room < asked.names.len())?;
    if delete_over(asked) {
        return Err(Refusal::Limits);
    }
    if scratch_short(index.capacity, scratch) {
        return Err(Refusal::Scratch);
    }
    Ok(())
}

// The batch, and numbers and summary after it: the names are slots.
pub fn delete_batch(
    index: Index,
    slices: &mut DeleteSlices<'_>,
    asked: &Deleting<'_>,
    scratch: &mut [u32],
) -> Emptied
    requires { Deletable (arrays_of index (delete_slices_of slices.old)) index.entry asked.now.repair_beam asked.now.repair_degree asked.now.names.now scratch.old
        × Weighing slices.old.weights.now × (length slices.old.weights.now ≡ index.dim)
        × (length slices.old.numbers.now ≡ length slices.old.marks.now) × (index.live ≤ length slices.old.summary.now) }
    ensures { BatchDeleted (arrays_of index (delete_slices_of slices.old)) index.alpha index.entry asked.now.repair_beam asked.now.repair_degree asked.now.names.now
        (arrays_of index (delete_slices_of slices.new)) result.entry result.count scratch.new
        × Struck slices.new.marks.now slices.old.numbers.now slices.old.summary.now index.live slices.new.numbers.now slices.new.summary.now × SameDeleteSlices slices.old slices.new }
{
    let space = index::space(index, slices.vectors, slices.weights);
    let mut graph = GraphMut {
        space,
        degree: index.degree as usize,
        targets: slices.targets,
        edges: slices.edges,
        versions: slices.versions,
        marks: slices.marks,
    };
    let how = Repair {
        alpha: index.alpha,
        entry: index.entry,
        beam: asked.repair_beam as usize,
        degree: asked.repair_degree as usize,
    };
    let emptied = deletion::delete_batch(&mut graph, how, asked.names, scratch);
    let marks = &mut *slices.marks;
    let numbers = &mut *slices.numbers;
    let summary = &mut *slices.summary;
    strike(marks, numbers, summary, index.live as usize);
    emptied
}

// The index without the slots that a batch emptied, and how many they are. By itself: a guarded delete calls it too.
pub fn with_fewer(index: Index, emptied: Emptied) -> Changed
    requires { emptied.count ≤ index.live }
    ensures { result ≡ fewer index emptied.entry emptied.count }
{
    let n = emptied.count as u32;
    Changed {
        index: Index {
            entry: emptied.entry,
            live: index.live - n,
            ..index
        },
        count: n,
    }
}

// Deletes the live ones of the slots named and repairs the rows around them.
fn delete_slots(
    index: Index,
    slices: &mut DeleteSlices<'_>,
    asked: &Deleting<'_>,
    room: usize,
    scratch: &mut [u32],
) -> Result<Changed, Refusal>
    ensures { Deletes index (delete_slices_of slices.old) (slot_delete asked.now.names.now asked.now.repair_beam asked.now.repair_degree) room scratch.old (delete_slices_of slices.new) scratch.new result × SameDeleteSlices slices.old slices.new }
{
    check_delete(index, &slices.read(), asked, room, scratch.len())?;
    let emptied = delete_batch(index, slices, asked, scratch);
    Ok(with_fewer(index, emptied))
}

// Deletes the live slots that the names name and repairs the rows around them. The stats of each are left in the scratch for a list of `room` records
// (`write_stats` writes them).
pub fn delete(
    index: Index,
    slices: &mut DeleteSlices<'_>,
    asked: &Deleting<'_>,
    room: usize,
    scratch: &mut [u32],
) -> Result<Changed, Refusal>
    ensures { Deletes index (delete_slices_of slices.old) (deleting_of asked.now) room scratch.old (delete_slices_of slices.new) scratch.new result × SameDeleteSlices slices.old slices.new }
{
    let mut slots = [0u32; 256];
    let by = by_slots(index, &slices.read(), *asked, &mut slots);
    delete_slots(index, slices, &by, room, scratch)
}
