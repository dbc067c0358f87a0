// Lines `guarded`.
ghost use Rattle.std.specs.Prelude.{◌≡◌, IfOk};
ghost use Rattle.lines.specs.Inner.Answers.{Answered, index_left};
ghost use Rattle.guards.specs.Inner.Calls.{GuardedDeletes, GuardedRead, index_guarded};

use super::reports::expect_report;
use admission::Lists;
use changes::{asked, expect_emptied};
use guarding::Guarded;
use index::{DeleteSlices, Refusal};
use lines::answers::expect_done;
use lines::prepare::{Arrays, State, part_mut};
use text::{Differs, Numbers};

// Passes the answer to a guarded delete, which leaves the index without what is deleted, or the former one where it is deferred or refused.
fn expect_guarded(
    line: &mut Numbers<'_>,
    state: &mut State,
    guarded: Result<Guarded, Refusal>,
    checked: &[u32],
    lost: &[u32],
    scratch: &[u32],
) -> Result<(), Differs>
    ensures lent { state.new.lent ≡ state.old.lent }
    ensures index { state.new.index ≡ index_left (index_guarded state.old.index) guarded state.old.index }
    ensures read { IfOk result (λ _. Answered (GuardedRead checked.now lost.now scratch.now) line.old.rest line.new.rest guarded) }
{
    if let Ok(Guarded::Applied(changed, _)) = guarded {
        state.index = changed.index;
    }
    match expect_done(line, guarded)? {
        None => Ok(()),
        Some(Guarded::Applied(changed, report)) => {
            expect_report(line, report, checked, lost)?;
            expect_emptied(line, changed.count, changed.index.capacity, scratch)
        }
        Some(Guarded::Deferred(report)) => expect_report(line, report, checked, lost),
    }
}

// Performs a line `guarded`.
pub fn delete(
    line: &mut Numbers<'_>,
    state: &mut State,
    arrays: &mut Arrays<'_>,
    scratch: &mut [u32],
) -> Result<(), Differs>
    ensures lent { state.new.lent ≡ state.old.lent }
    ensures read { IfOk result (λ _. GuardedDeletes line.old.rest line.new.rest state.old.index state.new.index) }
{
    let mut checked = [0u32; 1024];
    let mut lost = [0u32; 1024];
    let lent = state.lent;
    let asked = asked(line, part_mut(arrays.rows, lent.rows))?;
    // Not by a method of the arrays: see `delete` of changes.
    let mut slices = DeleteSlices {
        vectors: part_mut(arrays.vectors, lent.vectors),
        targets: part_mut(arrays.targets, lent.targets),
        edges: part_mut(arrays.edges, lent.edges),
        versions: part_mut(arrays.versions, lent.versions),
        marks: part_mut(arrays.marks, lent.marks),
        pool: part_mut(arrays.pool, lent.pool),
        numbers: part_mut(arrays.numbers, lent.numbers),
        summary: part_mut(arrays.summary, lent.summary),
        weights: part_mut(arrays.weights, lent.weights),
    };
    let mut lists = Lists {
        checked: part_mut(&mut checked, lent.slots),
        lost: part_mut(&mut lost, lent.dists),
    };
    let room = lent.slots.min(1024);
    let words = part_mut(scratch, lent.words);
    let guarded = guarding::guarded_delete(
        state.index,
        &mut slices,
        &asked,
        room,
        &mut lists,
        words,
    );
    expect_guarded(line, state, guarded, &checked, &lost, scratch)
}
