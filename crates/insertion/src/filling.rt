// The slots that a batch fills: which they are, and what is written into them.
ghost use Rattle.std.specs.Prelude.{not, ◌≡◌, ◌≤◌, length, take};
ghost use Rattle.lists.specs.Lists.{filter, range, put_front};
ghost use Rattle.slots.specs.Store.{is_valid};

use super::inserter::Inserter;
use slots::RowsMut;
use slots::marks::is_valid;
use vectors::Space;

// Writes the lowest free slots to the front of `slots`: as many as it has room for, and fewer where not as many are free.
// Counted by hand: tried as a `for` over `filter`, `take` and `enumerate`, where no proof was found that what these yield is the list.
pub fn free_slots(marks: &[u8], slots: &mut [u32])
    requires { length marks.now ≤ 65536 }
    ensures { slots.new ≡ put_front (take (length slots.old) (filter (λ s. not (is_valid marks.now s)) (range 0 (length marks.now)))) slots.old }
{
    let mut n: usize = 0;
    for s in 0..marks.len() {
        if n == slots.len() {
            return;
        }
        if !is_valid(marks, s) {
            slots[n] = s as u32;
            n += 1;
        }
    }
}

impl Inserter<'_, '_> {
    ghost use Rattle.std.specs.Prelude.{◌≡◌, ◌<◌, length};
    ghost use Rattle.slots.specs.Store.{store_ops};
    ghost use Rattle.insert.specs.Insert.{fill_all};
    ghost use Rattle.insertion.specs.Inner.Filling.{chunk_of, Fillable};
    ghost use Rattle.insertion.specs.Inner.Inserting.{index_in, Inserted};

    // Writes a vector into slot `s`, which becomes live with an empty row. The rows are made here and in `write_rows`: a method that gives them lends
    // the whole graph, so that vectors and marks cannot be used beside them, and one that gives all three the borrow checker does not cover.
    fn fill(&mut self, s: usize, vector: &[u8])
        requires { (s < length self.old.graph.now.marks.now) × (length vector.now ≡ self.old.graph.now.dim) }
        ensures { Inserted self.old (store_ops.fill (index_in self.old) s vector.now) self.new }
    {
        let graph = &mut *self.graph;
        let versions = graph.versions;
        let mut rows = RowsMut {
            degree: graph.degree,
            targets: graph.targets,
            edges: graph.edges,
            versions,
        };
        let vectors = &mut *graph.vectors;
        let marks = &mut *graph.marks;
        slots::fill(graph.dim, vectors, &mut rows, marks, s, vector);
    }

    // The vectors of `bytes` go into the slots of a chunk, which become live with empty rows.
    pub fn fill_chunk(&mut self, bytes: &[u8], slots: &[u32])
        requires { Fillable self.old.graph.now.dim (length self.old.graph.now.marks.now) bytes.now slots.now }
        ensures { Inserted self.old (fill_all store_ops (index_in self.old) (chunk_of self.old.graph.now.dim bytes.now slots.now)) self.new }
    {
        let given = Space {
            dim: self.graph.dim,
            weights: self.graph.weights,
            vectors: bytes,
        };
        for (i, &s) in slots.iter().enumerate() {
            self.fill(s as usize, given.vector(i));
        }
    }
}
