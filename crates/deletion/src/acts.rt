// The acts of a delete, in two halves: slots and their rows taken; rows around them repaired, and slots emptied.
ghost use Rattle.std.specs.Prelude.{◌<◌, ◌≤◌, length};
ghost use Rattle.vectors.specs.Lent.{measure_of};
ghost use Rattle.slots.specs.Lent.{graph_of, SameSlices};
ghost use Rattle.row.specs.Row.{Together};
ghost use Rattle.links.specs.Inner.Linking.{between, arrays_of, Applied};
ghost use Rattle.links.specs.Inner.Planning.{plan_words, Area, Plans, plans_at};
ghost use Rattle.deletion.specs.Lent.{graph_mut_of, SameGraph};
ghost use Rattle.deletion.specs.Inner.Acts.{Takeable, Taken, Repairable, Repaired};

use super::graph::GraphMut;
use super::layout::{Layout, lay_out};
use super::named::take_ids;
use super::plans::{Repair, make_plans, take_rows};
use candidates::id_at;
use distances::Kept;
use links::{Table, apply_plans};
use row::Pruner;
use slots::{Graph, RowsMut, finish};
use vectors::Space;

// Takes the live ones of `ids`, and their rows to the plans. Returns where they lie.
pub fn take_slots(graph: &Graph<'_>, ids: &[u32], scratch: &mut [u32]) -> Layout
    requires { Takeable (graph_of graph.now) ids.now scratch.old }
    ensures { Taken (graph_of graph.now) ids.now scratch.old result scratch.new }
{
    let mut at = lay_out(graph.rows.marks.len());
    at.count = take_ids(
        ids,
        graph.rows.marks,
        &mut scratch[at.from..at.from + 2 * ids.len()],
    );
    take_rows(graph, scratch, at);
    at
}

impl GraphMut<'_> {
    ghost use Rattle.std.specs.Prelude.{◌<◌, length};
    ghost use Rattle.lists.specs.Lists.{All};
    ghost use Rattle.candidates.specs.Inner.Words.{cands_of};
    ghost use Rattle.row.specs.Row.{Together};
    ghost use Rattle.deletion.specs.Lent.{graph_mut_of, SameGraph};
    ghost use Rattle.deletion.specs.Inner.Acts.{AllFinished};

    // The last act on the slots of a list: the next version, and an empty row.
    fn finish_all(&mut self, list: &[u32])
        requires { Together (graph_mut_of self.old) × All (λ c. c.id < length self.old.marks.now) (cands_of list.now) }
        ensures { AllFinished (graph_mut_of self.old) (cands_of list.now) (graph_mut_of self.new) × SameGraph self.old self.new }
    {
        for k in 0..list.len() / 2 {
            let s = id_at(list, k) as usize;
            let targets = &mut *self.targets;
            let edges = &mut *self.edges;
            let versions = &mut *self.versions;
            finish(self.degree, targets, edges, versions, s);
        }
    }
}

// Applies the links of the plans of the layout to rows beside vectors and marks. A function of its own: where `repair_rows` made the pruner itself, over rows made
// of the graph's fields, no fact tied the graph's versions afterwards to those before.
fn link_rows(
    space: &Space<'_>,
    rows: &mut RowsMut<'_>,
    marks: &[u8],
    how: Repair,
    scratch: &mut [u32],
    at: Layout,
)
    requires together { Together (arrays_of space.now rows.old marks.now) }
    requires linkable { (how.entry < length marks.now) × Plans marks.now scratch.old at.stats at.plans at.count at.base × Area rows.old.degree scratch.old at.base × (how.degree ≤ 16) }
    ensures { Applied how.alpha (arrays_of space.now rows.old marks.now)
        (plans_at (between (measure_of space.now.weights) space.now.dim space.now.vectors.now) how.degree how.entry scratch.old at.stats at.plans at.count)
        (arrays_of space.now rows.new marks.now) scratch.old at.base (plan_words rows.old.degree) scratch.new × SameSlices rows.old rows.new }
{
    let mut kept = Kept::new(*space);
    let mut pruner = Pruner {
        alpha: how.alpha,
        kept: &mut kept,
        rows,
        marks,
    };
    let table = Table {
        degree: how.degree,
        entry: how.entry,
        stats: at.stats,
        plans: at.plans,
        count: at.count,
        base: at.base,
    };
    apply_plans(&mut pruner, table, scratch);
}

// Makes the plans of the dead slots of the layout, applies their links to the stored rows, and empties the slots.
pub fn repair_rows(graph: &mut GraphMut<'_>, how: Repair, scratch: &mut [u32], at: Layout)
    requires together { Together (graph_mut_of graph.old) }
    requires repairable { Repairable (graph_mut_of graph.old) how scratch.old at }
    ensures { Repaired (graph_mut_of graph.old) how scratch.old at (graph_mut_of graph.new) scratch.new × SameGraph graph.old graph.new }
{
    let space = graph.space;
    let degree = graph.degree;
    let read = graph.read();
    make_plans(&read, how, scratch, at);
    let versions = &mut *graph.versions;
    let marks = &mut *graph.marks;
    let mut rows = RowsMut {
        degree,
        targets: graph.targets,
        edges: graph.edges,
        versions,
    };
    link_rows(&space, &mut rows, marks, how, scratch, at);
    graph.finish_all(&scratch[at.from..at.from + 2 * at.count]);
}
