// A graph in lent slices: the vectors of its slots and their rows.
ghost use Rattle.std.specs.Prelude.{length};
ghost use Rattle.vectors.specs.Vector.{Bytes};
ghost use Rattle.slots.specs.Inner.Rows.{RowShape};

use vectors::Space;

// The rows of all slots, `degree` targets and as many edge versions for each; and what tells whether a reference is live: a version and a mark for each slot.
#[derive(Clone, Copy)]
pub struct Rows<'a> {
    pub degree: usize,
    pub targets: &'a [u32],
    pub edges: &'a [u16],
    pub versions: &'a [u16],
    pub marks: &'a [u8],
}

// Vectors and rows of as many slots as there are marks.
#[derive(Clone, Copy)]
pub struct Graph<'a> {
    pub space: Space<'a>,
    pub rows: Rows<'a>,
    pub ghost bytes: { Bytes space.dim (length rows.marks.now) space.vectors.now },
    pub ghost shape: { RowShape rows.degree rows.targets.now rows.edges.now rows.versions.now rows.marks.now },
}

// Rows that are written, with the versions that their references get.
#[derive(Drop)]
pub struct RowsMut<'a> {
    pub degree: usize,
    pub targets: &'a mut [u32],
    pub edges: &'a mut [u16],
    pub versions: &'a [u16],
}

impl RowsMut<'_> {
    ghost use Rattle.std.specs.Prelude.{◌≡◌, length};
    ghost use Rattle.vectors.specs.Vector.{Bytes};
    ghost use Rattle.slots.specs.Inner.Rows.{RowShape};
    ghost use Rattle.vectors.specs.Lent.{measure_of};
    ghost use Rattle.slots.specs.Lent.{graph_of, rows_mut_of};

    // The graph that the rows make, beside vectors and marks.
    pub fn graph<'a>(&'a self, space: Space<'a>, marks: &'a [u8]) -> Graph<'a>
        requires bytes { Bytes space.dim (length marks.now) space.vectors.now }
        requires shape { RowShape self.now.degree self.now.targets.now self.now.edges.now self.now.versions.now marks.now }
        ensures { graph_of result ≡ rows_mut_of (measure_of space.entry.weights) space.entry.dim space.entry.vectors.now self.now marks.now }
    {
        Graph {
            space,
            rows: Rows {
                degree: self.degree,
                targets: &*self.targets,
                edges: &*self.edges,
                versions: self.versions,
                marks,
            },
        }
    }
}
