// The graph that a delete writes.
use slots::{Graph, Rows};
use vectors::Space;

// Rows, versions and marks, which are written, and vectors, which stay: an insert's `GraphMut` has vectors by `&mut` and versions as they stay, and one
// struct with a type parameter for each slice would be no plainer than the two.
#[derive(Drop)]
pub struct GraphMut<'a> {
    pub space: Space<'a>,
    pub degree: usize,
    pub targets: &'a mut [u32],
    pub edges: &'a mut [u16],
    pub versions: &'a mut [u16],
    pub marks: &'a mut [u8],
}

impl GraphMut<'_> {
    ghost use Rattle.std.specs.Prelude.{◌≡◌, length};
    ghost use Rattle.vectors.specs.Vector.{Bytes};
    ghost use Rattle.slots.specs.Inner.Rows.{RowShape};
    ghost use Rattle.slots.specs.Lent.{graph_of};
    ghost use Rattle.deletion.specs.Lent.{graph_mut_of};

    // The same graph, to be read.
    pub fn read(&self) -> Graph<'_>
        requires bytes { Bytes self.now.space.dim (length self.now.marks.now) self.now.space.vectors.now }
        requires shape { RowShape self.now.degree self.now.targets.now self.now.edges.now self.now.versions.now self.now.marks.now }
        ensures { graph_of result ≡ graph_mut_of self.now }
    {
        Graph {
            space: self.space,
            rows: Rows {
                degree: self.degree,
                targets: self.targets,
                edges: self.edges,
                versions: self.versions,
                marks: self.marks,
            },
        }
    }
}
