// The nine slices of an index, as its calls are lent them: by `&mut` those that the call writes. One struct with a type parameter for each slice would be no
// plainer than these, so their `read`s are alike.
ghost use Rattle.std.specs.Prelude.{◌≡◌, length};
ghost use Rattle.vectors.specs.Distance.{distance};
ghost use Rattle.vectors.specs.Weights.{Weighing};
ghost use Rattle.vectors.specs.Lent.{measure_of};

use super::{Index, Lengths};
use slots::{Graph, Rows};
use vectors::{Space, Weights};

// To be read. The vectors have a lifetime of their own: a slot's vector is a part of them, and who holds it may write the others.
#[derive(Clone, Copy)]
pub struct Slices<'v, 'a> {
    pub vectors: &'v [u8],
    pub targets: &'a [u32],
    pub edges: &'a [u16],
    pub versions: &'a [u16],
    pub marks: &'a [u8],
    pub pool: &'a [u32],
    pub numbers: &'a [u32],
    pub summary: &'a [u32],
    pub weights: &'a [u8],
}

// To be written by making.
#[derive(Drop)]
pub struct NewSlices<'a> {
    pub vectors: &'a mut [u8],
    pub targets: &'a mut [u32],
    pub edges: &'a mut [u16],
    pub versions: &'a mut [u16],
    pub marks: &'a mut [u8],
    pub pool: &'a mut [u32],
    pub numbers: &'a mut [u32],
    pub summary: &'a mut [u32],
    pub weights: &'a mut [u8],
}

// To be written by an insert, which leaves versions, pool and weights.
#[derive(Drop)]
pub struct InsertSlices<'a> {
    pub vectors: &'a mut [u8],
    pub targets: &'a mut [u32],
    pub edges: &'a mut [u16],
    pub versions: &'a [u16],
    pub marks: &'a mut [u8],
    pub pool: &'a [u32],
    pub numbers: &'a mut [u32],
    pub summary: &'a mut [u32],
    pub weights: &'a [u8],
}

// To be written by a delete, which leaves vectors, pool and weights.
#[derive(Drop)]
pub struct DeleteSlices<'a> {
    pub vectors: &'a [u8],
    pub targets: &'a mut [u32],
    pub edges: &'a mut [u16],
    pub versions: &'a mut [u16],
    pub marks: &'a mut [u8],
    pub pool: &'a [u32],
    pub numbers: &'a mut [u32],
    pub summary: &'a mut [u32],
    pub weights: &'a [u8],
}

// To be written by enabling the guard, which writes the pool alone.
#[derive(Drop)]
pub struct EnableSlices<'a> {
    pub vectors: &'a [u8],
    pub targets: &'a [u32],
    pub edges: &'a [u16],
    pub versions: &'a [u16],
    pub marks: &'a [u8],
    pub pool: &'a mut [u32],
    pub numbers: &'a [u32],
    pub summary: &'a [u32],
    pub weights: &'a [u8],
}

// The vectors of an index, and the weights that they are measured with. A function, since the borrow checker does not cover a `Space` that is written in place
// where a graph to be deleted from is made.
pub fn space<'a>(index: Index, vectors: &'a [u8], weights: &'a [u8]) -> Space<'a>
    requires weighing { Weighing weights.now }
    requires weighted { length weights.now ≡ index.dim }
    ensures dim { result.dim ≡ index.dim }
    ensures vectors { result.vectors ≡ vectors.entry }
    ensures measure { measure_of result.weights ≡ distance weights.now }
{
    Space {
        dim: index.dim as usize,
        weights: Weights::new(weights),
        vectors,
    }
}

impl<'a> Slices<'a, 'a> {
    ghost use Rattle.vectors.specs.Vector.{Bytes};
    ghost use Rattle.slots.specs.Sizes.{lengths_of};
    ghost use Rattle.slots.specs.Lent.{graph_of};
    ghost use Rattle.slots.specs.Inner.Rows.{RowShape};
    ghost use Rattle.index.specs.Index.{lengths_in, arrays_of};
    ghost use Rattle.index.specs.Lent.{slices_of};

    // The lengths of the nine.
    pub fn lengths(&self) -> Lengths
        ensures { lengths_in result ≡ lengths_of (slices_of self.now) }
    {
        Lengths {
            vectors: self.vectors.len(),
            targets: self.targets.len(),
            edges: self.edges.len(),
            versions: self.versions.len(),
            marks: self.marks.len(),
            pool: self.pool.len(),
            numbers: self.numbers.len(),
            summary: self.summary.len(),
            weights: self.weights.len(),
        }
    }

    // The graph of an index that these are the slices of.
    pub fn graph(&self, index: Index) -> Graph<'a>
        requires bytes { Bytes index.dim (length self.now.marks.now) self.now.vectors.now }
        requires weighing { Weighing self.now.weights.now }
        requires weighted { length self.now.weights.now ≡ index.dim }
        requires shape { RowShape index.degree self.now.targets.now self.now.edges.now self.now.versions.now self.now.marks.now }
        ensures { graph_of result ≡ arrays_of index (slices_of self.now) }
    {
        Graph {
            space: space(index, self.vectors, self.weights),
            rows: Rows {
                degree: index.degree as usize,
                targets: self.targets,
                edges: self.edges,
                versions: self.versions,
                marks: self.marks,
            },
        }
    }
}

impl NewSlices<'_> {
    ghost use Rattle.index.specs.Lent.{slices_of, new_slices_of};

    // The same slices, to be read.
    pub fn read(&self) -> Slices<'_, '_>
        ensures { slices_of result ≡ new_slices_of self.now }
    {
        Slices {
            vectors: self.vectors,
            targets: self.targets,
            edges: self.edges,
            versions: self.versions,
            marks: self.marks,
            pool: self.pool,
            numbers: self.numbers,
            summary: self.summary,
            weights: self.weights,
        }
    }
}

impl InsertSlices<'_> {
    ghost use Rattle.index.specs.Lent.{slices_of, insert_slices_of};

    // The same slices, to be read.
    pub fn read(&self) -> Slices<'_, '_>
        ensures { slices_of result ≡ insert_slices_of self.now }
    {
        Slices {
            vectors: self.vectors,
            targets: self.targets,
            edges: self.edges,
            versions: self.versions,
            marks: self.marks,
            pool: self.pool,
            numbers: self.numbers,
            summary: self.summary,
            weights: self.weights,
        }
    }
}

impl DeleteSlices<'_> {
    ghost use Rattle.index.specs.Lent.{slices_of, delete_slices_of};

    // The same slices, to be read.
    pub fn read(&self) -> Slices<'_, '_>
        ensures { slices_of result ≡ delete_slices_of self.now }
    {
        Slices {
            vectors: self.vectors,
            targets: self.targets,
            edges: self.edges,
            versions: self.versions,
            marks: self.marks,
            pool: self.pool,
            numbers: self.numbers,
            summary: self.summary,
            weights: self.weights,
        }
    }
}

impl EnableSlices<'_> {
    ghost use Rattle.index.specs.Lent.{slices_of, enable_slices_of};

    // The same slices, to be read.
    pub fn read(&self) -> Slices<'_, '_>
        ensures { slices_of result ≡ enable_slices_of self.now }
    {
        Slices {
            vectors: self.vectors,
            targets: self.targets,
            edges: self.edges,
            versions: self.versions,
            marks: self.marks,
            pool: self.pool,
            numbers: self.numbers,
            summary: self.summary,
            weights: self.weights,
        }
    }
}
