// Insert.
ghost use Rattle.std.specs.Prelude.{not, ◌||◌, ◌≡◌, ◌+◌, ◌-◌, ◌/◌, ◌≤◌, eqb, ltb, length};
ghost use Rattle.vectors.specs.Weights.{Weighing};
ghost use Rattle.numbers.specs.Numbers as Numbers;
ghost use Rattle.insertion.specs.Batch.{Insertable, BatchInserted};
ghost use Rattle.index.specs.Index.{arrays_of};
ghost use Rattle.index.specs.Lent.{slices_of, insert_slices_of, SameInsertSlices};
ghost use Rattle.index.specs.Inner.Deciding.{Decided};
ghost use Rattle.updating.specs.Insert.{inserting_of, insert_outputs, Inserts};
ghost use Rattle.updating.specs.Inner.Filling.{insert_wrong, insert_tests, with_first_entry, with_live, Labelable, Relabelled};

use super::Changed;
use index::refusals::{check_index, scratch_short};
use index::{Index, InsertSlices, Refusal, Slices};
use insertion::{GraphMut, Selection};
use numbers::{Labels, enter, repeated, write_numbers};
use slots::limits;
use vectors::Weights;

// What an insert asks for: vectors and a number for each, and the beam of their walks.
#[derive(Clone, Copy)]
pub struct Inserting<'a> {
    pub bytes: &'a [u8],
    pub numbers: &'a [u32],
    pub beam: u32,
}

// How many whole vectors so many bytes hold; none where dim is 0, which row 1 turns back only later: row 3 needs the count first.
fn whole(bytes: usize, dim: u32) -> usize
    ensures { result ≡ bytes / dim }
{
    bytes.checked_div(dim as usize).unwrap_or(0)
}

// Row 3, of the list for slots and of the numbers: too short for `n`, or not one for each of `n` vectors. By itself: written in place, the `||` would fork
// the proof of every row that follows.
fn room_or_numbers_wrong(n: usize, slots: usize, given: usize) -> bool
    ensures { result ≡ (ltb slots n || not (eqb given n)) }
{
    slots < n || given != n
}

// Row 10: fewer slots are free than vectors are given. By itself, for what the difference asks.
fn too_few(capacity: u32, live: u32, n: usize) -> bool
    requires { live ≤ capacity }
    ensures { result ≡ ltb (capacity - live) n }
{
    ((capacity - live) as usize) < n
}

// Row 15: a given number is 0, carried by a live slot, or twice in the list. By itself, for its `||`, as above.
fn taken(labels: &Labels<'_>, given: &[u32]) -> bool
    requires { length given.now ≤ 65536 }
    ensures { result ≡ Numbers.taken labels.now.numbers.now given.now }
{
    labels.any_live(given) || repeated(given)
}

// Whether one of rows 1, 2, 3, 16, 6, 7, 8, 9, 10 and 15 turns an insert back: the first.
fn check_insert(
    index: Index,
    slices: &Slices<'_, '_>,
    asked: &Inserting<'_>,
    slots: usize,
    scratch: usize,
) -> Result<(), Refusal>
    ensures { Decided index (slices_of slices.now) (insert_wrong index (inserting_of asked.now) slots) (insert_tests index (slices_of slices.now) (inserting_of asked.now) scratch) result }
{
    let bytes = asked.bytes.len();
    let n = whole(bytes, index.dim);
    let wrong = room_or_numbers_wrong(n, slots, asked.numbers.len());
    check_index(index, slices, wrong)?;
    if limits::BEAM < asked.beam {
        return Err(Refusal::Limits);
    }
    if scratch_short(index.capacity, scratch) {
        return Err(Refusal::Scratch);
    }
    if bytes != n * index.dim as usize {
        return Err(Refusal::Bytes);
    }
    if too_few(index.capacity, index.live, n) {
        return Err(Refusal::Full);
    }
    let labels = Labels {
        numbers: slices.numbers,
        summary: &slices.summary[..index.live as usize],
    };
    if taken(&labels, asked.numbers) {
        return Err(Refusal::Numbers);
    }
    Ok(())
}

// The batch, by the index's sizes. Returns how many vectors it has.
fn insert_batch(
    index: Index,
    slices: &mut InsertSlices<'_>,
    asked: &Inserting<'_>,
    slots: &mut [u32],
    scratch: &mut [u32],
) -> usize
    requires { Insertable (arrays_of index (insert_slices_of slices.old)) index.alpha index.entry asked.now.beam asked.now.bytes.now slots.old scratch.old
        × Weighing slices.old.weights.now × (length slices.old.weights.now ≡ index.dim) }
    ensures { BatchInserted (arrays_of index (insert_slices_of slices.old)) index.alpha index.entry asked.now.beam asked.now.bytes.now slots.old
        (arrays_of index (insert_slices_of slices.new)) slots.new result
        × (slices.new.numbers.now ≡ slices.old.numbers.now) × (slices.new.summary.now ≡ slices.old.summary.now) × SameInsertSlices slices.old slices.new }
{
    let versions = slices.versions;
    let mut graph = GraphMut {
        dim: index.dim as usize,
        weights: Weights::new(slices.weights),
        degree: index.degree as usize,
        vectors: slices.vectors,
        targets: slices.targets,
        edges: slices.edges,
        versions,
        marks: slices.marks,
    };
    let how = Selection {
        alpha: index.alpha,
        entry: index.entry,
        beam: asked.beam as usize,
    };
    insertion::insert_batch(&mut graph, how, asked.bytes, slots, scratch)
}

// The index that an insert of `n` vectors begins with: where no slot is live, the first that it fills, which is slot 0, becomes the entry.
fn with_first_entry(index: Index, n: usize) -> Index
    ensures { result ≡ with_first_entry index n }
{
    if index.live == 0 && n != 0 {
        Index { entry: 0, ..index }
    } else {
        index
    }
}

// The index with `n` live slots more. By itself, for what the sum asks.
fn with_more(index: Index, n: u32) -> Index
    requires { index.live + n ≤ 65536 }
    ensures { result ≡ with_live index (index.live + n) }
{
    Index {
        live: index.live + n,
        ..index
    }
}

// Gives the slots filled their numbers, and enters them in the summary of the `live` others, behind which they are written: so `live` stands beside it.
fn label(numbers: &mut [u32], summary: &mut [u32], live: u32, slots: &[u32], given: &[u32])
    requires { Labelable numbers.old summary.old live slots.now given.now }
    ensures { Relabelled numbers.old summary.old live slots.now given.now numbers.new summary.new }
{
    write_numbers(numbers, slots, given);
    enter(numbers, summary, live as usize, &slots[..given.len()]);
}

// Inserts vectors with their numbers into the lowest free slots, which go to the front of `slots`.
pub fn insert(
    index: Index,
    slices: &mut InsertSlices<'_>,
    asked: &Inserting<'_>,
    slots: &mut [u32],
    scratch: &mut [u32],
) -> Result<Changed, Refusal>
    ensures { Inserts index (insert_slices_of slices.old) (inserting_of asked.now) (insert_outputs slots.old) scratch.old (insert_slices_of slices.new) (insert_outputs slots.new) scratch.new result × SameInsertSlices slices.old slices.new }
{
    check_insert(index, &slices.read(), asked, slots.len(), scratch.len())?;
    let begun = with_first_entry(index, asked.numbers.len());
    let n = insert_batch(begun, slices, asked, slots, scratch) as u32;
    let numbers = &mut *slices.numbers;
    let summary = &mut *slices.summary;
    label(numbers, summary, index.live, slots, asked.numbers);
    Ok(Changed {
        index: with_more(begun, n),
        count: n,
    })
}
