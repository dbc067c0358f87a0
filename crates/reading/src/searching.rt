// Search.
ghost use Rattle.std.specs.Prelude.{not, ◌||◌, ◌≡◌, min, eqb, ltb, length};
ghost use Rattle.slots.specs.Sizes.{limits};
ghost use Rattle.candidates.specs.Inner.Words.{cands_of};
ghost use Rattle.index.specs.Lent.{slices_of};
ghost use Rattle.index.specs.Inner.Deciding.{Decided};
ghost use Rattle.reading.specs.Search.{searching_of, found_of, SameFound, Searches};
ghost use Rattle.reading.specs.Inner.Finding.{search_tests, Fits, Shown};

use candidates::{Candidate, dist_at, id_at};
use index::refusals::{check_index, scratch_short};
use index::{Index, Refusal, Slices};
use numbers::copy_numbers;
use slots::limits;

// Row 7: the beam is over its limit, or more are asked for than the shortest output holds.
#[tactic(auto, unfolding(slots::specs::Sizes::limits))]
fn search_over(k: u32, beam: u32, room: usize) -> bool
    ensures { result ≡ (ltb limits.beam beam || ltb room k) }
{
    limits::BEAM < beam || room < k as usize
}

// What a search asks for: the `k` nearest to a query, found with a beam.
#[derive(Clone, Copy)]
pub struct Searching<'a> {
    pub query: &'a [u8],
    pub k: u32,
    pub beam: u32,
}

// The lists that a search writes what it finds to: slots, distances and figure numbers.
#[derive(Drop)]
pub struct Found<'a> {
    pub slots: &'a mut [u32],
    pub dists: &'a mut [f32],
    pub numbers: &'a mut [u32],
}

// Turns a search back by the first of rows 1, 2, 3, 16, 6, 7 and 8 that holds.
fn check_search(
    index: Index,
    slices: &Slices<'_, '_>,
    asked: &Searching<'_>,
    found: &Found<'_>,
    scratch: usize,
) -> Result<(), Refusal>
    ensures { Decided index (slices_of slices.now) (not (eqb (length asked.now.query.now) index.dim)) (search_tests index.capacity (searching_of asked.now) (found_of found.now) scratch) result }
{
    let wrong = asked.query.len() != index.dim as usize;
    check_index(index, slices, wrong)?;
    let room = found
        .slots
        .len()
        .min(found.dists.len())
        .min(found.numbers.len());
    if search_over(asked.k, asked.beam, room) {
        return Err(Refusal::Limits);
    }
    if scratch_short(index.capacity, scratch) {
        return Err(Refusal::Scratch);
    }
    Ok(())
}

// Writes the candidates of a list to the outputs. By places: after `slots.iter_mut().zip(dists)` the proof knows nothing of what was written.
fn show(list: &[u32], slots: &mut [u32], dists: &mut [f32])
    requires { Fits list.now slots.old dists.old }
    ensures { Shown (cands_of list.now) slots.old dists.old slots.new dists.new }
{
    for i in 0..list.len() / 2 {
        let c = Candidate::new(dist_at(list, i), id_at(list, i));
        slots[i] = c.id;
        dists[i] = c.dist;
    }
}

// The `k` nearest that the walk from the entry finds: their slots, distances and figure numbers, nearest first. Returns how many they are.
pub fn search<'a>(
    index: Index,
    slices: &Slices<'a, 'a>,
    asked: &Searching<'_>,
    found: &mut Found<'_>,
    scratch: &mut [u32],
) -> Result<u32, Refusal>
    ensures { Searches index (slices_of slices.now) (searching_of asked.now) (found_of found.old) scratch.old (found_of found.new) scratch.new result × SameFound found.old found.new }
{
    check_search(index, slices, asked, found, scratch.len())?;
    let graph = slices.graph(index);
    let pool = walk::search_pool(
        &graph,
        asked.query,
        index.entry,
        asked.beam as usize,
        scratch,
    );
    let n = pool.min(asked.k as usize);
    let slots = &mut *found.slots;
    let dists = &mut *found.dists;
    let numbers = &mut *found.numbers;
    show(&scratch[..2 * n], slots, dists);
    copy_numbers(slices.numbers, slots, &mut numbers[..n]);
    Ok(n as u32)
}
