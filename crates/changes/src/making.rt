// Lines `make`.
ghost use Rattle.std.specs.Prelude.{◌≡◌, IfOk};
ghost use Rattle.lines.specs.Inner.Answers.{Answered, index_left};
ghost use Rattle.changes.specs.Inner.Calls.{Makes};

use index::{Index, Making, NewSlices, Refusal};
use lines::answers::expect_done;
use lines::prepare::{Arrays, State, alpha_of, part_mut};
use text::{Differs, Numbers};

// Passes the answer to making, which leaves the new index, or the former one where it is refused.
fn expect_created(
    line: &mut Numbers<'_>,
    state: &mut State,
    created: Result<Index, Refusal>,
) -> Result<(), Differs>
    ensures lent { state.new.lent ≡ state.old.lent }
    ensures index { state.new.index ≡ index_left (λ index. index) created state.old.index }
    ensures read { IfOk result (λ _. Answered (λ from to index. from ≡ to) line.old.rest line.new.rest created) }
{
    if let Ok(index) = created {
        state.index = index;
    }
    expect_done(line, created)?;
    Ok(())
}

// Performs a line `make`.
pub fn make(
    line: &mut Numbers<'_>,
    state: &mut State,
    arrays: &mut Arrays<'_>,
) -> Result<(), Differs>
    ensures lent { state.new.lent ≡ state.old.lent }
    ensures read { IfOk result (λ _. Makes line.old.rest line.new.rest state.old.index state.new.index) }
{
    let lent = state.lent;
    let given = Making {
        dim: line.argument(),
        capacity: line.argument(),
        degree: line.argument(),
        alpha: alpha_of(line.argument()),
        entry: line.argument(),
        count: line.argument(),
        bytes: part_mut(arrays.given, lent.given),
        rows: part_mut(arrays.rows, lent.rows),
        numbers: part_mut(arrays.figures, lent.figures),
        weights: part_mut(arrays.given_weights, lent.given_weights),
    };
    // Not by a method of the arrays: see `delete` of deleting.rt.
    let mut slices = NewSlices {
        vectors: part_mut(arrays.vectors, lent.vectors),
        targets: part_mut(arrays.targets, lent.targets),
        edges: part_mut(arrays.edges, lent.edges),
        versions: part_mut(arrays.versions, lent.versions),
        marks: part_mut(arrays.marks, lent.marks),
        pool: part_mut(arrays.pool, lent.pool),
        numbers: part_mut(arrays.numbers, lent.numbers),
        summary: part_mut(arrays.summary, lent.summary),
        weights: part_mut(arrays.weights, lent.weights),
    };
    let created = index::create(&given, &mut slices);
    expect_created(line, state, created)
}
