// The links of all plans, plan by plan. `apply_repair_operations_by_source` in the Rust, which works out each row once, at the end: the same rows.
ghost use Rattle.std.specs.Prelude.{◌≡◌, ◌+◌, ◌*◌, ◌/◌, ◌<◌, ◌≤◌, length};
ghost use Rattle.vectors.specs.Lent.{measure_of};
ghost use Rattle.candidates.specs.Candidates.{ids};
ghost use Rattle.candidates.specs.Inner.Words.{cands_of};
ghost use Rattle.repair.specs.Repair.{repair_links};
ghost use Rattle.links.specs.Inner.Linking.{between, Linked, Made};
ghost use Rattle.links.specs.Inner.Planning.{plan_words, Area, Plan, Attempted, Plans, plans_at};

use super::sources::apply_sources;
use super::span::{Pair, Spanner, nearest, score};
use candidates::{id_at, keep_valid, put};
use distances::KEPT;
use row::Pruner;

// The most pairs of a plan: 16 of each of 320 candidates.
const PAIRS: usize = 5120;

// Plans to be applied: each begins with the candidate nearest to `entry`, and links a slot with the `degree` nearest of those connected before it. In lent words
// `count` of them lie from `plans` on, their counts from `stats` on, and from `base` on words to apply their links in.
#[derive(Clone, Copy)]
pub struct Table {
    pub degree: usize,
    pub entry: u32,
    pub stats: usize,
    pub plans: usize,
    pub count: usize,
    pub base: usize,
    pub ghost degree_most: { degree ≤ 16 },
}

// How many links the plan of `n` candidates has. Tried with `map` and `sum`, and the proof that the total fits its type did not close.
pub fn attempted(repair_degree: usize, n: usize) -> usize
    requires { (repair_degree ≤ 16) × (n ≤ 320) }
    ensures { Attempted repair_degree n result }
{
    let mut total: usize = 0;
    for k in 1..n {
        total += 2 * repair_degree.min(k);
    }
    total
}

// Applies the links of the plan of a list. Its words are lists of those connected, of those that remain and of the connected ones by their distance, 320 candidates
// each, and words to apply its links in. `repair_kr_mst_operations` in the Rust, which only lists them.
fn apply_plan(
    pruner: &mut Pruner<'_, '_, '_, '_, '_, KEPT>,
    table: Table,
    pairs: &mut [Pair],
    list: &[u32],
    words: &mut [u32],
)
    requires { (table.entry < length pruner.old.marks.now) × Plan pruner.old.marks.now list.now 0 (length list.now / 2) × (length list.now ≤ 640) × (length words.old ≡ plan_words pruner.old.rows.now.degree) × (length pairs.old ≡ 5120) }
    ensures { Linked pruner.old (repair_links (between (measure_of pruner.old.kept.now.space.weights) pruner.old.kept.now.space.dim pruner.old.kept.now.space.vectors.now) table.degree table.entry (ids (cands_of list.now))) pruner.new }
{
    if list.len() < 2 {
        return;
    }
    let space = pruner.kept.space;
    let (connected, rest) = words.split_at_mut(640);
    let (remaining, rest) = rest.split_at_mut(640);
    let (near, room) = rest.split_at_mut(640);
    let all = &mut near[..list.len()];
    score(&space, table.entry, list, all);
    let i = nearest(all);
    let start = id_at(all, i);
    put(connected, 0, 0, start);
    let others = &mut remaining[..list.len()];
    score(&space, start, list, others);
    let m = keep_valid(others, pruner.marks, start);
    let spanner = Spanner {
        space,
        degree: table.degree,
    };
    let t = spanner.span(connected, &mut others[..2 * m], near, pairs);
    apply_sources(pruner, &pairs[..t], list, room);
}

// Applies the links of the plans of a table, which lie in words below those of their lists.
fn apply_all(
    pruner: &mut Pruner<'_, '_, '_, '_, '_, KEPT>,
    table: Table,
    plans: &[u32],
    words: &mut [u32],
)
    requires { (table.entry < length pruner.old.marks.now) × Plans pruner.old.marks.now plans.now table.stats table.plans table.count (length plans.now) × (length words.old ≡ plan_words pruner.old.rows.now.degree) }
    ensures { Linked pruner.old (plans_at (between (measure_of pruner.old.kept.now.space.weights) pruner.old.kept.now.space.dim pruner.old.kept.now.space.vectors.now) table.degree table.entry plans.now table.stats table.plans table.count) pruner.new }
{
    let mut pairs = [Pair { slot: 0, parent: 0 }; PAIRS];
    for j in 0..table.count {
        let at = table.plans + 640 * j;
        let n = plans[table.stats + 4 * j + 2] as usize;
        apply_plan(pruner, table, &mut pairs, &plans[at..at + 2 * n], words);
    }
}

// Applies the links of the plans of a table in order, each with its candidates in 640 words and their number in the third of its four counts.
pub fn apply_plans(pruner: &mut Pruner<'_, '_, '_, '_, '_, KEPT>, table: Table, scratch: &mut [u32])
    requires { (table.entry < length pruner.old.marks.now) × Plans pruner.old.marks.now scratch.old table.stats table.plans table.count table.base × Area pruner.old.rows.now.degree scratch.old table.base }
    ensures { Made pruner.old (plans_at (between (measure_of pruner.old.kept.now.space.weights) pruner.old.kept.now.space.dim pruner.old.kept.now.space.vectors.now) table.degree table.entry scratch.old table.stats table.plans table.count) scratch.old table.base plan_words pruner.new scratch.new }
{
    // three lists of 640 words, and two candidates for each place of a row with one more
    let words = 1922 + 4 * pruner.rows.degree;
    let (plans, work) = scratch.split_at_mut(table.base);
    apply_all(pruner, table, plans, &mut work[..words]);
}
