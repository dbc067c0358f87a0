// The row of a slot, worked out in lent words: its live targets with their distances, and a selection of candidates that is written as the row. A list of candidates
// is words of its own, as in `candidates`.
#![tactic(auto)]

ghost use Rattle.std.specs.Prelude.{◌≡◌, ◌*◌, ◌/◌, ◌<◌, ◌≤◌, length, drop};
ghost use Rattle.lists.specs.Lists.{put_front};
ghost use Rattle.candidates.specs.Candidates.{ids};
ghost use Rattle.candidates.specs.Inner.Words.{cands_of};
ghost use Rattle.slots.specs.Lent.{graph_of, SameSlices};
ghost use Rattle.slots.specs.Inner.Writing.{Wrote};
ghost use Rattle.row.specs.Row.{LiveScored, Writable};

mod pruner;

pub use pruner::Pruner;
use slots::{Graph, RowsMut};

// The live row of slot `s`, each target with its distance to `s`, as candidates. Returns how many they are; they lie at the front of the list, and words behind those
// of a whole row stay. Written by hand: with `filter_map` and `zip` over the words their number would still have to be counted, so that is no plainer.
pub fn live_scored(graph: &Graph<'_>, s: u32, list: &mut [u32]) -> usize
    requires { (s < length (graph_of graph.now).marks) × (2 * (graph_of graph.now).degree ≤ length list.old) }
    ensures { LiveScored (graph_of graph.now) s result list.new × (drop (2 * (graph_of graph.now).degree) list.new ≡ drop (2 * (graph_of graph.now).degree) list.old) }
{
    let slot = s as usize;
    let mut n: usize = 0;
    for place in 0..graph.rows.degree {
        if let Some(t) = graph.rows.live_at(slot, place) {
            let dist = distances::slot_distance(&graph.space, slot, t as usize);
            candidates::put(list, n, dist, t);
            n += 1;
        }
    }
    n
}

// Writes the slots of a list as the row of slot `s`. They are laid out at the front of `to`, and the words behind them stay.
pub fn write_ids(rows: &mut RowsMut<'_>, s: u32, list: &[u32], to: &mut [u32])
    requires { Writable rows.old.degree rows.old.targets.now rows.old.edges.now s × (length list.now / 2 ≤ length to.old) }
    ensures { Wrote rows.old.degree rows.old.targets.now rows.old.edges.now rows.old.versions.now s (ids (cands_of list.now)) rows.new.targets.now rows.new.edges.now × SameSlices rows.old rows.new
        × (to.new ≡ put_front (ids (cands_of list.now)) to.old) }
{
    candidates::copy_ids(list, to);
    rows.write(s as usize, &to[..list.len() / 2]);
}

// The same of the candidates that begin at word `from` of a list, whose slots are laid out at its own front, over candidates too.
pub fn write_packed(rows: &mut RowsMut<'_>, s: u32, list: &mut [u32], from: usize)
    requires { Writable rows.old.degree rows.old.targets.now rows.old.edges.now s × (from ≤ length list.old) }
    ensures { Wrote rows.old.degree rows.old.targets.now rows.old.edges.now rows.old.versions.now s (ids (cands_of (drop from list.old))) rows.new.targets.now rows.new.edges.now × SameSlices rows.old rows.new
        × (list.new ≡ put_front (ids (cands_of (drop from list.old))) list.old) }
{
    let n = (list.len() - from) / 2;
    candidates::pack_ids(list, from);
    rows.write(s as usize, &list[..n]);
}
