// Lines `insert`.
ghost use Rattle.std.specs.Prelude.{◌≡◌, IfOk};
ghost use Rattle.lines.specs.Inner.Answers.{Answered, index_left};
ghost use Rattle.changes.specs.Inner.Calls.{Filled, Inserts};

use index::{InsertSlices, Refusal};
use lines::answers::expect_done;
use lines::prepare::{Arrays, State, part_mut};
use text::{Differs, Numbers};
use updating::{Changed, Inserting};

// Passes the answer to an insert, which leaves the index with what is inserted, or the former one where it is refused.
fn expect_inserted(
    line: &mut Numbers<'_>,
    state: &mut State,
    inserted: Result<Changed, Refusal>,
    slots: &[u32],
) -> Result<(), Differs>
    ensures lent { state.new.lent ≡ state.old.lent }
    ensures index { state.new.index ≡ index_left (λ changed. changed.index) inserted state.old.index }
    ensures read { IfOk result (λ _. Answered (λ from to changed. Filled from to changed.count slots.now) line.old.rest line.new.rest inserted) }
{
    if let Ok(changed) = inserted {
        state.index = changed.index;
    }
    let Some(changed) = expect_done(line, inserted)? else {
        return Ok(());
    };
    line.expect(changed.count)?;
    line.expect_first(changed.count as usize, slots)
}

// Performs a line `insert`.
pub fn insert(
    line: &mut Numbers<'_>,
    state: &mut State,
    arrays: &mut Arrays<'_>,
    scratch: &mut [u32],
) -> Result<(), Differs>
    ensures lent { state.new.lent ≡ state.old.lent }
    ensures read { IfOk result (λ _. Inserts line.old.rest line.new.rest state.old.index state.new.index) }
{
    let mut slots = [0u32; 1024];
    let lent = state.lent;
    let asked = Inserting {
        bytes: part_mut(arrays.given, lent.given),
        numbers: part_mut(arrays.figures, lent.figures),
        beam: line.argument(),
    };
    // Not by a method of the arrays: see `delete` of deleting.rt.
    let mut slices = InsertSlices {
        vectors: part_mut(arrays.vectors, lent.vectors),
        targets: part_mut(arrays.targets, lent.targets),
        edges: part_mut(arrays.edges, lent.edges),
        versions: part_mut(arrays.versions, lent.versions),
        marks: part_mut(arrays.marks, lent.marks),
        pool: part_mut(arrays.pool, lent.pool),
        numbers: part_mut(arrays.numbers, lent.numbers),
        summary: part_mut(arrays.summary, lent.summary),
        weights: part_mut(arrays.weights, lent.weights),
    };
    let room = part_mut(&mut slots, lent.slots);
    let scratch = part_mut(scratch, lent.words);
    let inserted = updating::insert(state.index, &mut slices, &asked, room, scratch);
    expect_inserted(line, state, inserted, &slots)
}
