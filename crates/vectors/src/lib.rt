// The vectors of all slots, and the weights that they are measured with. The distances in code are the crate `distances`.
#![tactic(auto)]

ghost use Rattle.std.specs.Prelude.{◌≡◌, ◌+◌, ◌*◌, ◌≤◌, length};
ghost use Rattle.vectors.specs.Vector.{VectorAt};

mod weights;

pub use weights::Weights;

// The vectors of all slots: `dim` bytes for each, and a weight for each byte.
#[derive(Clone, Copy)]
pub struct Space<'a> {
    pub dim: usize,
    pub weights: Weights<'a>,
    pub vectors: &'a [u8],
    pub ghost weighted: { length weights.each.now ≡ dim },
}

impl<'a> Space<'a> {
    ghost use Rattle.vectors.specs.Vector.{VectorAt};
    ghost use Rattle.vectors.specs.Lent.{HasVector};

    // The vector of slot `s`, dead or live, as that part of the lent bytes.
    pub fn vector(&self, s: usize) -> &'a [u8]
        requires { HasVector self.now s }
        ensures { VectorAt self.now.dim s self.now.vectors result }
    {
        vector(self.dim, self.vectors, s)
    }
}

// The same of lent bytes, which the part keeps borrowed alone: a `Space` keeps its weights too.
pub fn vector<'a>(dim: usize, vectors: &'a [u8], s: usize) -> &'a [u8]
    requires { s * dim + dim ≤ length vectors.now }
    ensures { VectorAt dim s vectors.entry result }
{
    let from = s * dim;
    &vectors[from..from + dim]
}
