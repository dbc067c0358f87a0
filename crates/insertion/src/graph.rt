// The graph that an insert writes.
use vectors::Weights;

// Vectors, rows and marks, which are written, and versions, which stay: a delete's `GraphMut` has versions by `&mut` and vectors as they stay, and one struct
// with a type parameter for each slice would be no plainer than the two.
#[derive(Drop)]
pub struct GraphMut<'a> {
    pub dim: usize,
    pub weights: Weights<'a>,
    pub degree: usize,
    pub vectors: &'a mut [u8],
    pub targets: &'a mut [u32],
    pub edges: &'a mut [u16],
    pub versions: &'a [u16],
    pub marks: &'a mut [u8],
}

// How the row of a new slot is selected: from what a walk that begins at `entry` and keeps `beam` candidates finds, with `alpha`.
#[derive(Clone, Copy)]
pub struct Selection {
    pub alpha: f32,
    pub entry: u32,
    pub beam: usize,
}
