// An inserter fills slots of a graph and writes their rows, chunk by chunk.
ghost use Rattle.std.specs.Prelude.{◌≡◌, ◌<◌, ◌≤◌, length};
ghost use Rattle.row.specs.Row.{Together};
ghost use Rattle.insertion.specs.Lent.{graph_mut_of};

use super::graph::{GraphMut, Selection};
use slots::{Graph, Rows};
use vectors::Space;

// The graph that chunks are inserted into, and how their rows are selected.
#[derive(Drop)]
pub struct Inserter<'g, 'a> {
    pub graph: &'g mut GraphMut<'a>,
    pub how: Selection,
    pub ghost together: { Together (graph_mut_of graph.now) },
    pub ghost weighted: { length graph.now.weights.each.now ≡ graph.now.dim },
    pub ghost entry_in: { how.entry < length graph.now.marks.now },
    pub ghost beam_most: { how.beam ≤ 1024 },
}

impl Inserter<'_, '_> {
    ghost use Rattle.std.specs.Prelude.{◌≡◌};
    ghost use Rattle.slots.specs.Lent.{graph_of};
    ghost use Rattle.insertion.specs.Inner.Inserting.{held};

    // The graph as it stands.
    pub fn read(&self) -> Graph<'_>
        ensures { graph_of result ≡ held self.now }
    {
        let graph = &*self.graph;
        Graph {
            space: Space {
                dim: graph.dim,
                weights: graph.weights,
                vectors: &*graph.vectors,
            },
            rows: Rows {
                degree: graph.degree,
                targets: &*graph.targets,
                edges: &*graph.edges,
                versions: graph.versions,
                marks: &*graph.marks,
            },
        }
    }
}
