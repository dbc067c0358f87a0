// The candidates of a plan, connected one after the other: the nearest to a connected one first, paired with those nearest to it, to be linked both ways.
ghost use Rattle.std.specs.Prelude.{◌≡◌, ◌++◌, ◌*◌, ◌≤◌, map, length};
ghost use Rattle.vectors.specs.Lent.{measure_of};
ghost use Rattle.candidates.specs.Candidates.{ids, scored};
ghost use Rattle.candidates.specs.Inner.Words.{cands_of};
ghost use Rattle.links.specs.Inner.Linking.{between, links_at, pairs_of};
ghost use Rattle.links.specs.Inner.Planning.{Stored, Nearest, lower_to};

use candidates::{dist_at, id_at, put, sort_by_distance};
use distances::slot_distance;
use vectors::Space;

// The place of the nearest of a list, the first of equals. Tried with `min_by_key`, and the proof did not close.
pub fn nearest(list: &[u32]) -> usize
    requires { 2 ≤ length list.now }
    ensures { Nearest (cands_of list.now) result }
{
    let mut best: usize = 0;
    for i in 1..list.len() / 2 {
        if dist_at(list, i) < dist_at(list, best) {
            best = i;
        }
    }
    best
}

// The slots of a list with their distances to slot `y`, written as another list.
pub fn score(space: &Space<'_>, y: u32, list: &[u32], to: &mut [u32])
    requires { Stored space.now.dim space.now.vectors.now y (cands_of list.now) × (length to.old ≡ length list.now) }
    ensures { cands_of to.new ≡ scored (λ x. between (measure_of space.now.weights) space.now.dim space.now.vectors.now x y) (ids (cands_of list.now)) }
{
    for k in 0..list.len() / 2 {
        let x = id_at(list, k);
        let dist = slot_distance(space, x as usize, y as usize);
        put(to, k, dist, x);
    }
}

// The distances of a list, lowered to those to slot `y`.
fn lower(space: &Space<'_>, y: u32, list: &mut [u32])
    requires { Stored space.now.dim space.now.vectors.now y (cands_of list.old) }
    ensures { cands_of list.new ≡ map (lower_to (λ x. between (measure_of space.now.weights) space.now.dim space.now.vectors.now x y)) (cands_of list.old) }
{
    for k in 0..list.len() / 2 {
        let x = id_at(list, k);
        let dist = slot_distance(space, x as usize, y as usize);
        let was = dist_at(list, k);
        put(list, k, was.min(dist), x);
    }
}

// A slot and one of those connected before it that are nearest to it, to be linked both ways.
#[derive(Clone, Copy)]
pub struct Pair {
    pub slot: u32,
    pub parent: u32,
}

// The pairs of `x` and the slots of as many candidates of a list, in their order.
fn pair_each(x: u32, list: &[u32], pairs: &mut [Pair])
    requires { 2 * length pairs.old ≤ length list.now }
    ensures { pairs_of pairs.new ≡ links_at x list.now 0 (length pairs.new) }
{
    for (i, pair) in pairs.iter_mut().enumerate() {
        *pair = Pair {
            slot: x,
            parent: id_at(list, i),
        };
    }
}

// What a plan is made with: the vectors, and how many connected ones each slot is paired with. The lists and the pairs are arguments of their own: as fields, each
// contract would also have to say that they stay the same slices, which is no plainer.
#[derive(Clone, Copy)]
pub struct Spanner<'a> {
    pub space: Space<'a>,
    pub degree: usize,
    pub ghost degree_most: { degree ≤ 16 },
}

impl Spanner<'_> {
    ghost use Rattle.std.specs.Prelude.{◌≡◌, ◌+◌, ◌-◌, ◌*◌, ◌/◌, ◌<◌, ◌≤◌, length};
    ghost use Rattle.candidates.specs.Candidates.{ids};
    ghost use Rattle.candidates.specs.Inner.Words.{cands, cands_of};
    ghost use Rattle.repair.specs.Repair.{links};
    ghost use Rattle.links.specs.Inner.Linking.{between};
    ghost use Rattle.links.specs.Inner.Planning.{Stored, PairedNearest, Planned, Connected, Spanned};

    // Pairs slot `x` with the `degree` nearest of the connected ones, of equals the earlier, which are sorted in `near`. Returns how many pairs they are.
    fn pair_nearest(&self, x: u32, connected: &[u32], near: &mut [u32], pairs: &mut [Pair]) -> usize
        requires { Stored self.now.space.dim self.now.space.vectors.now x (cands_of connected.now) × (length connected.now ≤ length near.old) × (16 ≤ length pairs.old) }
        ensures { PairedNearest (links (between (measure_of self.now.space.weights) self.now.space.dim self.now.space.vectors.now) self.now.degree (ids (cands_of connected.now)) x) pairs.new result }
    {
        let list = &mut near[..connected.len()];
        score(&self.space, x, connected, list);
        sort_by_distance(list);
        let n = self.degree.min(connected.len() / 2);
        pair_each(x, list, &mut pairs[..n]);
        n
    }

    // Connects the nearest of those that remain to the first `k` of `connected`. The last takes its place. Returns how many pairs it makes.
    fn connect(
        &self,
        connected: &mut [u32],
        k: usize,
        remaining: &mut [u32],
        near: &mut [u32],
        pairs: &mut [Pair],
    ) -> usize
        requires { Planned (measure_of self.now.space.weights) self.now.space.dim self.now.space.vectors.now (cands connected.old 0 k) (cands_of remaining.old) × (2 ≤ length remaining.old) × (length connected.old ≡ 640) × (length near.old ≡ 640) × (16 ≤ length pairs.old) }
        ensures { Connected (measure_of self.now.space.weights) self.now.space.dim self.now.space.vectors.now self.now.degree (cands connected.old 0 k) (cands_of remaining.old) (cands connected.new 0 (k + 1)) (cands remaining.new 0 (length remaining.old / 2 - 1)) pairs.new result }
    {
        let i = nearest(remaining);
        let next = id_at(remaining, i);
        let r = self.pair_nearest(next, &connected[..2 * k], near, pairs);
        put(connected, k, 0, next);
        let last = remaining.len() / 2 - 1;
        let dist = dist_at(remaining, last);
        let id = id_at(remaining, last);
        put(remaining, i, dist, id);
        lower(&self.space, next, &mut remaining[..2 * last]);
        r
    }

    // Connects all that remain with the first of `connected`. Returns how many pairs of linked slots there are.
    pub fn span(
        &self,
        connected: &mut [u32],
        remaining: &mut [u32],
        near: &mut [u32],
        pairs: &mut [Pair],
    ) -> usize
        requires { Planned (measure_of self.now.space.weights) self.now.space.dim self.now.space.vectors.now (cands connected.old 0 1) (cands_of remaining.old) × (length connected.old ≡ 640) × (length near.old ≡ 640) × (length pairs.old ≡ 5120) }
        ensures { Spanned (measure_of self.now.space.weights) self.now.space.dim self.now.space.vectors.now self.now.degree (cands connected.old 0 1) (cands_of remaining.old) pairs.new result }
    {
        let n = remaining.len() / 2;
        let mut t: usize = 0;
        for i in 0..n {
            let left = &mut remaining[..2 * (n - i)];
            t += self.connect(connected, i + 1, left, near, &mut pairs[t..]);
        }
        t
    }
}
