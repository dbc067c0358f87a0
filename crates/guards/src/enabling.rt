// Lines `enable`.
ghost use Rattle.std.specs.Prelude.{◌≡◌, IfOk};
ghost use Rattle.lines.specs.Inner.Answers.{Answered, index_left};
ghost use Rattle.guards.specs.Inner.Calls.{Enables, Pooled};

use super::statuses::expect_status;
use guard::Config;
use guarding::Enabled;
use index::{EnableSlices, Refusal};
use lines::answers::expect_done;
use lines::prepare::{Arrays, State, part_mut};
use text::{Differs, Numbers};

// Passes the answer to enabling, which leaves the index with its guard on, or the former one where it is refused.
fn expect_enabled(
    line: &mut Numbers<'_>,
    state: &mut State,
    enabled: Result<Enabled, Refusal>,
    pool: &[u32],
) -> Result<(), Differs>
    ensures lent { state.new.lent ≡ state.old.lent }
    ensures index { state.new.index ≡ index_left (λ enabled. enabled.index) enabled state.old.index }
    ensures read { IfOk result (λ _. Answered (λ from to enabled. Pooled from to enabled.status pool.now) line.old.rest line.new.rest enabled) }
{
    if let Ok(enabled) = enabled {
        state.index = enabled.index;
    }
    let Some(enabled) = expect_done(line, enabled)? else {
        return Ok(());
    };
    let s = enabled.status;
    expect_status(line, s)?;
    line.expect_first(s.pool as usize, pool)
}

// Performs a line `enable`.
pub fn enable(
    line: &mut Numbers<'_>,
    state: &mut State,
    arrays: &mut Arrays<'_>,
    scratch: &mut [u32],
) -> Result<(), Differs>
    ensures lent { state.new.lent ≡ state.old.lent }
    ensures read { IfOk result (λ _. Enables line.old.rest line.new.rest state.old.index state.new.index) }
{
    let config = Config {
        count: line.argument(),
        multiplier: line.argument(),
        sample: line.argument(),
        beam: line.argument(),
    };
    let lent = state.lent;
    // Not by a method of the arrays: see `delete` of changes.
    let mut slices = EnableSlices {
        vectors: part_mut(arrays.vectors, lent.vectors),
        targets: part_mut(arrays.targets, lent.targets),
        edges: part_mut(arrays.edges, lent.edges),
        versions: part_mut(arrays.versions, lent.versions),
        marks: part_mut(arrays.marks, lent.marks),
        pool: part_mut(arrays.pool, lent.pool),
        numbers: part_mut(arrays.numbers, lent.numbers),
        summary: part_mut(arrays.summary, lent.summary),
        weights: part_mut(arrays.weights, lent.weights),
    };
    let scratch = part_mut(scratch, lent.words);
    let enabled = guarding::enable_guard(state.index, &mut slices, config, scratch);
    expect_enabled(line, state, enabled, arrays.pool)
}
