// One chunk of a batch: its slots are filled, all its plans are made, and then its rows are written.
ghost use Rattle.std.specs.Prelude.{◌≡◌, length};
ghost use Rattle.vectors.specs.Lent.{measure_of};
ghost use Rattle.slots.specs.Lent.{rows_mut_of, SameSlices};
ghost use Rattle.row.specs.Row.{Together};
ghost use Rattle.insertion.specs.Lent.{graph_mut_of, SameGraph};
ghost use Rattle.insertion.specs.Inner.Outgoing.{OutgoingRows};
ghost use Rattle.insertion.specs.Inner.Targets.{Renewable};
ghost use Rattle.insertion.specs.Inner.Chunk.{RowsWritten};

use super::graph::{GraphMut, Selection};
use super::inserter::Inserter;
use super::layout::{Plans, lay_out};
use super::outgoing::write_outgoing;
use super::planning::Planner;
use super::targets::write_named;
use distances::Kept;
use row::Pruner;
use slots::RowsMut;
use vectors::{Space, Weights};

// Writes the rows of a chunk whose plans are made: the outgoing rows of slots that no plan names, then the rows of those that one names. A function of its own:
// where `write_rows` made the pruner itself, over rows made of the graph's fields, the borrow checker did not cover it. Seven parameters: with the weights and
// vectors as one `Space`, made there, it was not proved that the vectors stay.
fn write_beside(
    rows: &mut RowsMut<'_>,
    weights: Weights<'_>,
    vectors: &[u8],
    marks: &[u8],
    how: Selection,
    plans: &Plans<'_>,
    scratch: &mut [u32],
)
    requires together { Together (rows_mut_of (measure_of weights) (length weights.each.now) vectors.now rows.old marks.now) }
    requires outgoing_rows { OutgoingRows rows.old.degree (length marks.now) plans.now.slots.now scratch.old plans.now.at plans.now.n × Renewable rows.old.degree (length marks.now) scratch.old plans.now.at plans.now.n }
    ensures { RowsWritten how (rows_mut_of (measure_of weights.entry) (length weights.entry.each.now) vectors.now rows.old marks.now) plans.now.slots.now scratch.old plans.now.at plans.now.n (rows_mut_of (measure_of weights.entry) (length weights.entry.each.now) vectors.now rows.new marks.now) × SameSlices rows.old rows.new }
{
    let space = Space {
        dim: weights.each.len(),
        weights,
        vectors,
    };
    let mut kept = Kept::new(space);
    let mut pruner = Pruner {
        alpha: how.alpha,
        kept: &mut kept,
        rows,
        marks,
    };
    write_outgoing(&mut pruner, plans, scratch);
    write_named(&mut pruner, plans, scratch);
}

// The same for the rows of a graph.
fn write_rows(graph: &mut GraphMut<'_>, how: Selection, plans: &Plans<'_>, scratch: &mut [u32])
    requires together { Together (graph_mut_of graph.old) }
    requires weighted { length graph.old.weights.each.now ≡ graph.old.dim }
    requires outgoing_rows { OutgoingRows graph.old.degree (length graph.old.marks.now) plans.now.slots.now scratch.old plans.now.at plans.now.n × Renewable graph.old.degree (length graph.old.marks.now) scratch.old plans.now.at plans.now.n }
    ensures { RowsWritten how (graph_mut_of graph.old) plans.now.slots.now scratch.old plans.now.at plans.now.n (graph_mut_of graph.new) × SameGraph graph.old graph.new }
{
    let weights = graph.weights;
    let versions = graph.versions;
    let mut rows = RowsMut {
        degree: graph.degree,
        targets: graph.targets,
        edges: graph.edges,
        versions,
    };
    let vectors = &mut *graph.vectors;
    let marks = &mut *graph.marks;
    write_beside(&mut rows, weights, vectors, marks, how, plans, scratch);
}

impl Inserter<'_, '_> {
    ghost use Rattle.slots.specs.Store.{store_ops};
    ghost use Rattle.insert.specs.Insert.{insert_chunk};
    ghost use Rattle.insertion.specs.Inner.Filling.{chunk_of, Fillable};
    ghost use Rattle.insertion.specs.Inner.Layout.{Enough};
    ghost use Rattle.insertion.specs.Inner.Inserting.{index_in, Inserted};

    // A chunk: the vectors of `bytes` go into `slots`, and the rows follow.
    pub fn insert_chunk(&mut self, bytes: &[u8], slots: &[u32], scratch: &mut [u32])
        requires { Fillable self.old.graph.now.dim (length self.old.graph.now.marks.now) bytes.now slots.now × Enough self.old.graph.now.degree (length self.old.graph.now.marks.now) scratch.old }
        ensures { Inserted self.old (insert_chunk store_ops self.old.how.beam (index_in self.old) (chunk_of self.old.graph.now.dim bytes.now slots.now)) self.new }
    {
        self.fill_chunk(bytes, slots);
        let at = lay_out(self.graph.marks.len(), self.graph.degree);
        let how = self.how;
        let planner = Planner {
            graph: self.read(),
            how,
            bytes,
            slots,
            at,
        };
        let n = planner.link_plans(scratch);
        let plans = Plans { slots, at, n };
        write_rows(self.graph, how, &plans, scratch);
    }
}
