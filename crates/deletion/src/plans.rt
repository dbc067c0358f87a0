// The plans of a delete: the candidates of each, and its four counts.
ghost use Rattle.std.specs.Prelude.{◌≡◌, ◌+◌, ◌<◌, ◌≤◌, length};
ghost use Rattle.candidates.specs.Inner.Words.{cands_of};
ghost use Rattle.slots.specs.Lent.{graph_of};
ghost use Rattle.deletion.specs.Inner.Naming.{Inside};
ghost use Rattle.deletion.specs.Inner.Plans.{Table, RowsTaken, refers, RowsIn, Passed, Collectable, Collects, counted, Makeable, PlansMade};

use super::layout::{COUNTS, Layout, PLAN_WORDS};
use super::named::sort_set;
use candidates::{id_at, keep_valid, put};
use links::attempted;
use row::live_scored;
use slots::Graph;
use walk::search_pool;

// How rows are repaired: walks begin at `entry` and keep `beam` candidates, a slot is linked with the `degree` nearest of those connected before it, and rows are
// pruned with `alpha`.
#[derive(Clone, Copy)]
pub struct Repair {
    pub alpha: f32,
    pub entry: u32,
    pub beam: usize,
    pub degree: usize,
}

// Takes the live row of each slot of the layout to its plan, and its length as the first count.
pub fn take_rows(graph: &Graph<'_>, scratch: &mut [u32], at: Layout)
    requires { Inside (length (graph_of graph.now).marks) scratch.old at.from at.count × Table (graph_of graph.now).degree scratch.old at }
    ensures { RowsTaken (graph_of graph.now) scratch.old at scratch.new }
{
    for k in 0..at.count {
        let s = id_at(&scratch[at.from..], k);
        let plan = at.plans + PLAN_WORDS * k;
        let n = live_scored(graph, s, &mut scratch[plan..plan + PLAN_WORDS]);
        scratch[at.stats + COUNTS * k] = n as u32;
    }
}

// The slots of a list whose rows hold `id` in its present version, as candidates of another list. Returns how many they are. Written by hand: with `filter` and `zip`
// over the words their number would still have to be counted, so that is no plainer.
fn recover(graph: &Graph<'_>, id: u32, list: &[u32], to: &mut [u32]) -> usize
    requires { RowsIn (graph_of graph.now) (cands_of list.now) × (length list.now ≤ length to.old) }
    ensures { Passed (refers (graph_of graph.now) id) (cands_of list.now) result to.new }
{
    let mut m: usize = 0;
    for k in 0..list.len() / 2 {
        let s = id_at(list, k);
        if graph.rows.holds(s as usize, id) {
            put(to, m, s, s);
            m += 1;
        }
    }
    m
}

// How many slots are recovered, and how many candidates a plan has.
#[derive(Clone, Copy)]
pub struct Collected {
    pub recovered: usize,
    pub candidates: usize,
}

// The candidates of the plan of slot `s`, which is dead: of its old live row, `r` slots at `at`, and what is recovered around its vector, the live
// ones, rising, each once.
fn collect(
    graph: &Graph<'_>,
    s: u32,
    how: Repair,
    scratch: &mut [u32],
    at: usize,
    r: usize,
) -> Collected
    requires { Collectable (graph_of graph.now) s how.entry how.beam scratch.old at r }
    ensures { Collects (graph_of graph.now) s how.entry how.beam scratch.old at r result.recovered result.candidates scratch.new }
{
    let query = graph.space.vector(s as usize);
    let n = search_pool(graph, query, how.entry, how.beam, scratch);
    let (found, plan) = scratch.split_at_mut(at);
    let q = recover(graph, s, &found[..2 * n], &mut plan[2 * r..PLAN_WORDS]);
    let k = sort_set(&mut plan[..2 * (r + q)]);
    let m = keep_valid(&mut plan[..2 * k], graph.rows.marks, s);
    Collected {
        recovered: q,
        candidates: m,
    }
}

// Writes the counts of a plan but the first.
fn put_counts(counts: &mut [u32], q: usize, m: usize, n: usize)
    requires { (3 < length counts.old) × (q ≤ 65536) × (m ≤ 65536) × (n ≤ 65536) }
    ensures { counts.new ≡ counted counts.old q m n }
{
    counts[1] = q as u32;
    counts[2] = m as u32;
    counts[3] = n as u32;
}

// Makes the plans of the slots of the layout: the candidates of each, and its counts.
pub fn make_plans(graph: &Graph<'_>, how: Repair, scratch: &mut [u32], at: Layout)
    requires { Makeable (graph_of graph.now) how scratch.old at }
    ensures { PlansMade (graph_of graph.now) how scratch.old at scratch.new }
{
    for k in 0..at.count {
        let s = id_at(&scratch[at.from..], k);
        let counts = at.stats + COUNTS * k;
        let r = scratch[counts] as usize;
        let c = collect(graph, s, how, scratch, at.plans + PLAN_WORDS * k, r);
        let n = attempted(how.degree, c.candidates);
        put_counts(&mut scratch[counts..], c.recovered, c.candidates, n);
    }
}
