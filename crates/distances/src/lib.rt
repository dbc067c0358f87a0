// The distance of two vectors, of two slots, and of a query and a slot.
#![tactic(auto)]

ghost use Rattle.std.specs.Prelude.{◌≡◌, ◌≤◌, length};
ghost use Rattle.vectors.specs.Distance.{distance};
ghost use Rattle.vectors.specs.Space.{slot_distance, query_distance, Measured};
ghost use Rattle.distances.specs.Inner.Sums.{Sides};
ghost use Rattle.vectors.specs.Lent.{space_of, HasVector};

mod kept;
mod lanes;

pub use kept::{KEPT, Kept};
use lanes::lane_sums;
use vectors::{Space, Weights};

// The four running sums, joined.
fn joined<const ONES: bool>(weights: &[u8], a: &[u8], b: &[u8]) -> u32
    requires { Sides ONES weights.now a.now b.now }
    ensures { Measured (distance weights.now a.now b.now) result }
{
    lane_sums::<ONES>(weights, a, b).strict_reduce_sum()
}

// The distance of two vectors: the sum of their squared differences, each times the weight of its place.
pub fn distance(weights: &Weights<'_>, a: &[u8], b: &[u8]) -> u32
    requires { (length a.now ≡ length weights.now.each.now) × (length b.now ≡ length weights.now.each.now) × (length weights.now.each.now ≤ 256) }
    ensures { Measured (distance weights.now.each.now a.now b.now) result }
{
    if weights.ones {
        return joined::<true>(weights.each, a, b);
    }
    joined::<false>(weights.each, a, b)
}

// The distance of the vectors of two slots.
pub fn slot_distance(space: &Space<'_>, s: usize, t: usize) -> u32
    requires { HasVector space.now s × HasVector space.now t × (space.now.dim ≤ 256) }
    ensures { Measured (slot_distance (space_of space.now) s t) result }
{
    distance(&space.weights, space.vector(s), space.vector(t))
}

// The distance of a query and the vector of a slot.
pub fn query_distance(space: &Space<'_>, query: &[u8], s: usize) -> u32
    requires { HasVector space.now s × (length query.now ≡ space.now.dim) × (space.now.dim ≤ 256) }
    ensures { Measured (query_distance (space_of space.now) query.now s) result }
{
    distance(&space.weights, query, space.vector(s))
}

// The byte at a place of a vector; 0 past its end.
fn byte_at(vector: &[u8], place: usize) -> u32
    ensures { result ≤ 255 }
{
    u32::from(vector.get(place).copied().unwrap_or(0))
}

// Reads a byte of every 64 of slot `s`'s vector, so that it is on its way from memory when it is measured. Returns their sum, which tells nothing.
pub fn touch_vector(space: &Space<'_>, s: usize) -> u32
    requires { HasVector space.now s }
    ensures { result ≤ 1020 }
{
    let v = space.vector(s);
    byte_at(v, 0) + byte_at(v, 64) + byte_at(v, 128) + byte_at(v, 192)
}
