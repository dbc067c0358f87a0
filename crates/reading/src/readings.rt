// Readings of an index.
ghost use Rattle.std.specs.Prelude.{◌≡◌, length};
ghost use Rattle.std.specs.List.{slice_get};
ghost use Rattle.lists.specs.Lists.{filter};
ghost use Rattle.slots.specs.Store.{is_valid, refs_of};
ghost use Rattle.vectors.specs.Vector.{Bytes};
ghost use Rattle.vectors.specs.Weights.{Weighing};
ghost use Rattle.slots.specs.Lent.{graph_of};
ghost use Rattle.slots.specs.Inner.Rows.{RowShape};
ghost use Rattle.index.specs.Lent.{slices_of};
ghost use Rattle.reading.specs.Read.{Reads, GivesVector};
ghost use Rattle.reading.specs.Inner.Answering.{Answers};

use super::{Reading, Value};
use index::refusals::check_index;
use index::{Index, Refusal, Slices};
use slots::Graph;
use slots::marks::{is_valid, live_vector};
use slots::rows::BLANK;

// The target with `place` live ones before it in slot `s`'s row; none past the last.
fn target(graph: &Graph<'_>, s: usize, place: u32) -> Option<u32>
    ensures { result ≡ slice_get (filter (is_valid (graph_of graph.now).marks) (refs_of (graph_of graph.now) s)) place }
{
    let rows = graph.rows;
    if rows.marks.len() <= s {
        return None;
    }
    (0..rows.degree)
        .filter_map(|at| rows.live_at(s, at))
        .nth(place as usize)
}

// What is read of an index that no test turns back.
#[tactic(auto, using(crate::proofs::Shown::target_number), unfolding(crate::specs::Read::reading_of, crate::specs::Read::answer_of, calls::specs::Step::reading, calls::specs::State::stored, slots::specs::Store::store_ops, slots::specs::Store::store_view, index::specs::Index::state_of))]
fn answer(index: Index, slices: &Slices<'_, '_>, reading: Reading) -> Value
    requires bytes { Bytes index.dim (length slices.now.marks.now) slices.now.vectors.now }
    requires weighing { Weighing slices.now.weights.now }
    requires weighted { length slices.now.weights.now ≡ index.dim }
    requires shape { RowShape index.degree slices.now.targets.now slices.now.edges.now slices.now.versions.now slices.now.marks.now }
    ensures { Answers index (slices_of slices.now) reading result }
{
    match reading {
        Reading::Dim => Value::Number(index.dim),
        Reading::Capacity => Value::Number(index.capacity),
        Reading::Degree => Value::Number(index.degree),
        Reading::Alpha => Value::Alpha(index.alpha),
        Reading::Entry => Value::Number(index.entry),
        Reading::Live => Value::Number(index.live),
        // 1 for any byte but 0
        Reading::Mark(s) => Value::Number(u32::from(is_valid(slices.marks, s as usize))),
        Reading::Version(s) => Value::Version(
            slices.versions.get(s as usize).copied().unwrap_or(0),
        ),
        Reading::Number(s) => Value::Number(slices.numbers.get(s as usize).copied().unwrap_or(0)),
        // Blank past the last: the definitions answer a target by a number, as all but alpha and a version. With a case of `Value` for it, which holds an `Option`,
        // `Reads` would not say which case is given, since both are that number there.
        Reading::Target(s, place) => {
            let found = target(&slices.graph(index), s as usize, place);
            Value::Number(found.unwrap_or(BLANK))
        }
    }
}

// Reads one number.
pub fn read(index: Index, slices: &Slices<'_, '_>, reading: Reading) -> Result<Value, Refusal>
    ensures { Reads index (slices_of slices.now) reading result }
{
    check_index(index, slices, false)?;
    Ok(answer(index, slices, reading))
}

// The vector of a slot, as that part of the vectors; the empty part where the slot is dead or outside, and where the call is turned back.
pub fn read_vector<'a>(index: Index, slices: &Slices<'a, '_>, slot: u32) -> &'a [u8]
    ensures { GivesVector index (slices_of slices.now) slot slices.now.vectors result }
{
    let Ok(()) = check_index(index, slices, false) else {
        return &slices.vectors[..0];
    };
    let dim = index.dim as usize;
    live_vector(dim, slices.vectors, slices.marks, slot as usize)
}
