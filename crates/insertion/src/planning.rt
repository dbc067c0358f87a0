// The plans of a chunk: what each new slot selects, kept in the words one after the other, with the slot for each candidate and the plan's end.
ghost use Rattle.std.specs.Prelude.{◌<◌, ◌≤◌, length};
ghost use Rattle.insertion.specs.Inner.Layout.{Parts};
ghost use Rattle.insertion.specs.Inner.Filling.{Fillable};

use super::chains::chain;
use super::graph::Selection;
use super::layout::Layout;
use distances::Kept;
use slots::Graph;
use vectors::Space;
use walk::search_pool;

// What the plans of a chunk are made of: the graph in which its slots are filled, and where the plans lie. `Enough` is no field: it speaks of the scratch,
// which is lent to each call anew, as everywhere.
#[derive(Clone, Copy)]
pub struct Planner<'g, 'b, 's> {
    pub graph: Graph<'g>,
    pub how: Selection,
    pub bytes: &'b [u8],
    pub slots: &'s [u32],
    pub at: Layout,
    pub ghost degree_most: { graph.rows.degree ≤ 64 },
    pub ghost entry_in: { how.entry < length graph.rows.marks.now },
    pub ghost beam_most: { how.beam ≤ 1024 },
    pub ghost fillable: { Fillable graph.space.dim (length graph.rows.marks.now) bytes.now slots.now },
    pub ghost parts: { Parts (length graph.rows.marks.now) graph.rows.degree at },
}

impl Planner<'_, '_, '_> {
    ghost use Rattle.std.specs.Prelude.{◌*◌, ◌<◌, ◌≤◌, length};
    ghost use Rattle.insertion.specs.Inner.Layout.{Enough};
    ghost use Rattle.insertion.specs.Inner.Plans.{Planned, AllPlanned, Linked};
    ghost use Rattle.insertion.specs.Inner.Planning.{plan_by};

    // Makes the `i`-th plan: what its slot selects follows the `n` candidates of the plans before. Returns how many candidates there are then; that is
    // the plan's end. `n` stands beside the scratch: it changes at each turn, and what is written lies in three parts of the layout.
    fn plan_one(&self, i: usize, n: usize, scratch: &mut [u32]) -> usize
        requires { (i < length self.now.slots.now) × (n ≤ i * self.now.graph.rows.degree) × Enough self.now.graph.rows.degree (length self.now.graph.rows.marks.now) scratch.old }
        ensures { Planned self.now.graph.rows.degree (length self.now.graph.rows.marks.now) (plan_by self.now i) scratch.old self.now.at i n result scratch.new }
    {
        let graph = &self.graph;
        let at = self.at;
        let given = Space {
            dim: graph.space.dim,
            weights: graph.space.weights,
            vectors: self.bytes,
        };
        let width = self.how.beam.max(graph.rows.degree);
        let id = self.slots[i];
        let k = search_pool(graph, given.vector(i), self.how.entry, width, scratch);
        let mut kept = Kept::<0>::new(graph.space);
        let (words, plans) = scratch.split_at_mut(at.plans + 2 * n);
        let found = &mut words[..2 * k];
        let out = &mut plans[..2 * graph.rows.degree];
        let r = prune::prune_scored(self.how.alpha, &mut kept, graph.rows.marks, id, found, out);
        let end = n + r;
        scratch[at.sources + n..at.sources + end].fill(id);
        scratch[at.ends + i] = end as u32;
        end
    }

    // Makes the plans of all slots. Returns how many candidates they have.
    fn plan_all(&self, scratch: &mut [u32]) -> usize
        requires { Enough self.now.graph.rows.degree (length self.now.graph.rows.marks.now) scratch.old }
        ensures { AllPlanned self.now.graph.rows.degree (length self.now.graph.rows.marks.now) (plan_by self.now) scratch.old self.now.at (length self.now.slots.now) result scratch.new }
    {
        let mut n: usize = 0;
        for i in 0..self.slots.len() {
            n = self.plan_one(i, n, scratch);
        }
        n
    }

    // The plans of all slots, chained by slot. Returns how many candidates they have.
    pub fn link_plans(&self, scratch: &mut [u32]) -> u32
        requires { Enough self.now.graph.rows.degree (length self.now.graph.rows.marks.now) scratch.old }
        ensures { Linked self.now.graph.rows.degree (length self.now.graph.rows.marks.now) (plan_by self.now) scratch.old self.now.at (length self.now.slots.now) result scratch.new }
    {
        let n = self.plan_all(scratch) as u32;
        chain(scratch, self.at, n, self.graph.rows.marks.len());
        n
    }
}
