// Making an index. Its tests say what is bad, as those of refusals.rt do.
ghost use Rattle.std.specs.Prelude.{not, ◌&&◌, ◌∷◌, [], ◌≡◌, ◌-◌, ◌*◌, ◌≤◌, ◌++◌, eqb, ltb, length, replicate};
ghost use Rattle.slots.specs.Inner.Making.{Room, New};
ghost use Rattle.numbers.specs.Numbers.{taken};
ghost use Rattle.calls.specs.Refusals.{first_of, names_given, entry_given};
ghost use Rattle.index.specs.Index.{lengths_in};
ghost use Rattle.index.specs.Lent.{new_slices_of, SameNewSlices};
ghost use Rattle.index.specs.Create.{making_of, Creates};
ghost use Rattle.index.specs.Inner.Making.{fresh_index, NumberRoom, NewNumbers};
ghost use Rattle.index.specs.Inner.Deciding.{Judged};
ghost use Rattle.index.specs.Refusal.{turned_back};

use super::refusals::{check_sizes, product, weights_bad};
use super::{Index, Lengths, NewSlices, Refusal};
use numbers::{repeated, summarize};
use slots::parts::{copy, lay};
use slots::rows::BLANK;

// What making is given: sizes and alpha, the entry, the vectors, rows and numbers of the first `count` slots, and the weights.
#[derive(Clone, Copy)]
pub struct Making<'a> {
    pub dim: u32,
    pub capacity: u32,
    pub degree: u32,
    pub alpha: f32,
    pub entry: u32,
    pub count: u32,
    pub bytes: &'a [u8],
    pub rows: &'a [u32],
    pub numbers: &'a [u32],
    pub weights: &'a [u8],
}

// Row 5, of the given rows: a word is neither blank nor a given slot.
fn names_bad(rows: &[u32], count: u32) -> bool
    ensures { result ≡ not (names_given count rows.now) }
{
    rows.iter().any(|&t| t != BLANK && count <= t)
}

// Row 5, of the entry: it is no given slot, or not 0 where none is given.
fn entry_bad(entry: u32, count: u32) -> bool
    ensures { result ≡ not (entry_given count entry) }
{
    count <= entry && !(count == 0 && entry == 0)
}

// Row 3, of the given vectors, rows, numbers and weights: one of them has another length.
fn given_bad(given: &Making<'_>) -> bool
    ensures { result ≡ not (eqb (length given.now.bytes.now) (given.now.count * given.now.dim) && eqb (length given.now.rows.now) (given.now.count * given.now.degree) && eqb (length given.now.numbers.now) given.now.count && eqb (length given.now.weights.now) given.now.dim) }
{
    given.bytes.len() != product(given.count, given.dim)
        || given.rows.len() != product(given.count, given.degree)
        || given.numbers.len() != given.count as usize
        || given.weights.len() != given.dim as usize
}

// Turns a making back by the first of rows 4, 5 and 15 that holds.
fn check_given(given: &Making<'_>) -> Result<(), Refusal>
    requires { (given.now.capacity ≤ 65536) × (length given.now.numbers.now ≡ given.now.count) }
    ensures { turned_back result ≡ first_of ((4, ltb given.now.capacity given.now.count) ∷ (5, not (names_given given.now.count given.now.rows.now && entry_given given.now.count given.now.entry)) ∷ (15, taken [] given.now.numbers.now) ∷ []) }
{
    if given.capacity < given.count {
        return Err(Refusal::Count);
    }
    if names_bad(given.rows, given.count) || entry_bad(given.entry, given.count) {
        return Err(Refusal::Names);
    }
    // 0 counts too
    if repeated(given.numbers) {
        return Err(Refusal::Numbers);
    }
    Ok(())
}

// Turns a making back by the first of rows 1, 2, 3, 16, 4, 5 and 15 that holds.
fn check_making(given: &Making<'_>, lent: Lengths) -> Result<(), Refusal>
    ensures { Judged (making_of given.now) (lengths_in lent) result }
{
    check_sizes(given.dim, given.capacity, given.degree, given.alpha, lent)?;
    if given_bad(given) {
        return Err(Refusal::Lengths);
    }
    if weights_bad(given.weights) {
        return Err(Refusal::Weights);
    }
    check_given(given)
}

// The new index.
fn new_index(given: &Making<'_>) -> Index
    ensures { result ≡ fresh_index given.now }
{
    Index {
        dim: given.dim,
        capacity: given.capacity,
        degree: given.degree,
        alpha: given.alpha,
        entry: given.entry,
        live: given.count,
        guard: None,
    }
}

// Marks the first `given` slots live, and the others dead.
fn mark_given(marks: &mut [u8], given: usize)
    requires { given ≤ length marks.old }
    ensures { marks.new ≡ replicate given 1 ++ replicate (length marks.old - given) 0 }
{
    marks[..given].fill(1);
    marks[given..].fill(0);
}

// Writes the graph of an index that is accepted: the weights; the given vectors and rows into the first slots, which are live; zeros and blanks into the
// others.
fn write(given: &Making<'_>, slices: &mut NewSlices<'_>)
    requires { Room given.now.dim given.now.capacity given.now.degree given.now.count given.now.bytes.now given.now.rows.now slices.old.vectors.now slices.old.targets.now slices.old.edges.now slices.old.versions.now slices.old.marks.now slices.old.pool.now × (length slices.old.weights.now ≡ length given.now.weights.now) }
    ensures { New given.now.dim given.now.capacity given.now.degree given.now.count given.now.bytes.now given.now.rows.now slices.new.vectors.now slices.new.targets.now slices.new.edges.now slices.new.versions.now slices.new.marks.now slices.new.pool.now
        × (slices.new.weights.now ≡ given.now.weights.now) × (slices.new.numbers.now ≡ slices.old.numbers.now) × (slices.new.summary.now ≡ slices.old.summary.now) × SameNewSlices slices.old slices.new }
{
    lay(slices.vectors, given.bytes, 0);
    lay(slices.targets, given.rows, BLANK);
    slices.edges.fill(0);
    slices.versions.fill(0);
    mark_given(slices.marks, given.count as usize);
    slices.pool.fill(0);
    copy(slices.weights, given.weights);
}

// Writes the given numbers, zeros behind them, and the summary.
fn write_labels(given: &[u32], numbers: &mut [u32], summary: &mut [u32])
    requires { NumberRoom given.now numbers.old summary.old }
    ensures { NewNumbers given.now (length numbers.old) numbers.new summary.new }
{
    lay(numbers, given, 0);
    summarize(numbers, summary, given.len());
}

// Makes an index of what is given in the nine slices, whatever they hold: decides, before anything is written, whether it is accepted; then writes it.
pub fn create(given: &Making<'_>, slices: &mut NewSlices<'_>) -> Result<Index, Refusal>
    ensures { Creates (making_of given.now) (new_slices_of slices.old) (new_slices_of slices.new) result × SameNewSlices slices.old slices.new }
{
    let checked = check_making(given, slices.read().lengths());
    checked?;
    write(given, slices);
    write_labels(given.numbers, slices.numbers, slices.summary);
    Ok(new_index(given))
}
