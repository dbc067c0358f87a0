// A batch: the lowest free slots, in chunks of 256.
ghost use Rattle.std.specs.Prelude.{◌≡◌, length};
ghost use Rattle.insertion.specs.Lent.{graph_mut_of, SameGraph};
ghost use Rattle.insertion.specs.Batch.{Insertable, BatchInserted};

use super::filling::free_slots;
use super::graph::{GraphMut, Selection};
use super::inserter::Inserter;

// How many slots a chunk has at most.
const CHUNK: usize = 256;

impl Inserter<'_, '_> {
    ghost use Rattle.std.specs.Prelude.{length};
    ghost use Rattle.lists.specs.Lists.{foldl, chunks};
    ghost use Rattle.slots.specs.Store.{store_ops};
    ghost use Rattle.insert.specs.Insert.{insert_chunk};
    ghost use Rattle.insertion.specs.Inner.Filling.{chunk_of};
    ghost use Rattle.insertion.specs.Inner.Layout.{Enough};
    ghost use Rattle.insertion.specs.Inner.Chunk.{Assigned};
    ghost use Rattle.insertion.specs.Inner.Inserting.{index_in, Inserted};

    // The slots of a list get their vectors and rows, chunk by chunk.
    fn insert_chunks(&mut self, bytes: &[u8], slots: &[u32], scratch: &mut [u32])
        requires { Assigned self.old.graph.now.dim (length self.old.graph.now.marks.now) bytes.now slots.now × Enough self.old.graph.now.degree (length self.old.graph.now.marks.now) scratch.old }
        ensures { Inserted self.old (foldl (insert_chunk store_ops self.old.how.beam) (index_in self.old) (chunks (length slots.now) 256 (chunk_of self.old.graph.now.dim bytes.now slots.now))) self.new }
    {
        let mut rest = bytes;
        for part in slots.chunks(CHUNK) {
            let (now, later) = rest.split_at(part.len() * self.graph.dim);
            self.insert_chunk(now, part, scratch);
            rest = later;
        }
    }
}

// Inserts the vectors of `bytes` into the lowest free slots, whose numbers go to the front of `slots`. Returns how many they are.
pub fn insert_batch(
    graph: &mut GraphMut<'_>,
    how: Selection,
    bytes: &[u8],
    slots: &mut [u32],
    scratch: &mut [u32],
) -> usize
    requires insertable { Insertable (graph_mut_of graph.old) how.alpha how.entry how.beam bytes.now slots.old scratch.old }
    requires weighted { length graph.old.weights.each.now ≡ graph.old.dim }
    ensures { BatchInserted (graph_mut_of graph.old) how.alpha how.entry how.beam bytes.now slots.old (graph_mut_of graph.new) slots.new result × SameGraph graph.old graph.new }
{
    let count = bytes.len() / graph.dim;
    let mut inserter = Inserter { graph, how };
    free_slots(inserter.read().rows.marks, &mut slots[..count]);
    inserter.insert_chunks(bytes, &slots[..count], scratch);
    count
}
