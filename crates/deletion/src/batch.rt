// A batch of deletes, in the region `work` of the scratch.
ghost use Rattle.deletion.specs.Lent.{graph_mut_of, SameGraph};
ghost use Rattle.deletion.specs.Batch.{Deletable, BatchDeleted};

use super::acts::{repair_rows, take_slots};
use super::graph::GraphMut;
use super::named::{clear, new_entry};
use super::plans::Repair;

// How many slots a delete empties, and the entry after it.
#[derive(Clone, Copy)]
pub struct Emptied {
    pub count: usize,
    pub entry: u32,
}

// Deletes the live ones of `ids` and repairs the rows around them. Returns how many they are, and the entry after it. Their stats are left in the
// scratch, four words each. A repair degree of 0 acts as 1.
pub fn delete_batch(
    graph: &mut GraphMut<'_>,
    how: Repair,
    ids: &[u32],
    scratch: &mut [u32],
) -> Emptied
    requires { Deletable (graph_mut_of graph.old) how.entry how.beam how.degree ids.now scratch.old }
    ensures { BatchDeleted (graph_mut_of graph.old) how.alpha how.entry how.beam how.degree ids.now (graph_mut_of graph.new) result.entry result.count scratch.new × SameGraph graph.old graph.new }
{
    let read = graph.read();
    let at = take_slots(&read, ids, scratch);
    let marks = &mut *graph.marks;
    let list = &scratch[at.from..at.from + 2 * at.count];
    clear(marks, list);
    let entry = new_entry(marks, how.entry, list);
    let how = Repair {
        entry,
        degree: how.degree.max(1),
        ..how
    };
    repair_rows(graph, how, scratch, at);
    Emptied {
        count: at.count,
        entry,
    }
}
