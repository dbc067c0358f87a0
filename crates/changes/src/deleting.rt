// Lines `delete`.
ghost use Rattle.std.specs.Prelude.{◌≡◌, IfOk};
ghost use Rattle.text.specs.Inner.Text.{Reads};
ghost use Rattle.lines.specs.Inner.Answers.{Answered, index_left};
ghost use Rattle.changes.specs.Inner.Calls.{Deletes};
ghost use Rattle.changes.specs.Inner.Deletes.{number_of, Asked, Emptied};

use deletion::stats_place;
use index::{DeleteSlices, Refusal};
use lines::answers::expect_done;
use lines::prepare::{Arrays, State, part_mut};
use text::{Differs, Numbers};
use updating::{Changed, Deleting, Naming};

// What the names of a delete are. Not a `TryFrom`: `Naming` and the numbers are of other crates, and an impl needs a type of its own crate.
fn naming(line: &mut Numbers<'_>) -> Result<Naming, Differs>
    ensures { IfOk result (λ naming. Reads line.old.rest line.new.rest (number_of naming)) }
{
    match line.number()? {
        0 => Ok(Naming::Slots),
        1 => Ok(Naming::Numbers),
        _ => Err(Differs::Malformed),
    }
}

// What a delete of these names asks for.
pub fn asked<'a>(line: &mut Numbers<'_>, names: &'a [u32]) -> Result<Deleting<'a>, Differs>
    ensures { IfOk result (λ asked. (asked.names ≡ names.entry) × Asked line.old.rest line.new.rest asked.naming asked.repair_beam asked.repair_degree) }
{
    let naming = naming(line)?;
    Ok(Deleting {
        names,
        naming,
        repair_beam: line.argument(),
        repair_degree: line.argument(),
    })
}

// Passes the number n of the slots that a delete emptied and their stats, four words each, which it left in the scratch.
pub fn expect_emptied(
    line: &mut Numbers<'_>,
    n: u32,
    capacity: u32,
    scratch: &[u32],
) -> Result<(), Differs>
    ensures { IfOk result (λ _. Emptied line.old.rest line.new.rest n capacity scratch.now) }
{
    line.expect(n)?;
    let stats = scratch
        .get(stats_place(capacity)..)
        .ok_or(Differs::TooMuch)?;
    line.expect_first(n as usize * 4, stats)
}

// Passes the answer to a delete, which leaves the index without what is deleted, or the former one where it is refused.
fn expect_deleted(
    line: &mut Numbers<'_>,
    state: &mut State,
    deleted: Result<Changed, Refusal>,
    scratch: &[u32],
) -> Result<(), Differs>
    ensures lent { state.new.lent ≡ state.old.lent }
    ensures index { state.new.index ≡ index_left (λ changed. changed.index) deleted state.old.index }
    ensures read { IfOk result (λ _. Answered (λ from to changed. Emptied from to changed.count changed.index.capacity scratch.now) line.old.rest line.new.rest deleted) }
{
    if let Ok(changed) = deleted {
        state.index = changed.index;
    }
    let Some(changed) = expect_done(line, deleted)? else {
        return Ok(());
    };
    expect_emptied(line, changed.count, changed.index.capacity, scratch)
}

// Performs a line `delete`.
pub fn delete(
    line: &mut Numbers<'_>,
    state: &mut State,
    arrays: &mut Arrays<'_>,
    scratch: &mut [u32],
) -> Result<(), Differs>
    ensures lent { state.new.lent ≡ state.old.lent }
    ensures read { IfOk result (λ _. Deletes line.old.rest line.new.rest state.old.index state.new.index) }
{
    let lent = state.lent;
    let asked = asked(line, part_mut(arrays.rows, lent.rows))?;
    // Not by a method of the arrays: the borrow checker does not cover one that gives a struct of parts of its `&mut` fields.
    let mut slices = DeleteSlices {
        vectors: part_mut(arrays.vectors, lent.vectors),
        targets: part_mut(arrays.targets, lent.targets),
        edges: part_mut(arrays.edges, lent.edges),
        versions: part_mut(arrays.versions, lent.versions),
        marks: part_mut(arrays.marks, lent.marks),
        pool: part_mut(arrays.pool, lent.pool),
        numbers: part_mut(arrays.numbers, lent.numbers),
        summary: part_mut(arrays.summary, lent.summary),
        weights: part_mut(arrays.weights, lent.weights),
    };
    let room = lent.slots.min(1024);
    let words = part_mut(scratch, lent.words);
    let deleted = updating::delete(state.index, &mut slices, &asked, room, words);
    expect_deleted(line, state, deleted, scratch)
}
