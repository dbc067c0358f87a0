// Where a delete keeps its words, in the region `work` of the scratch.
ghost use Rattle.std.specs.Prelude.{◌≡◌, ◌≤◌};
ghost use Rattle.deletion.specs.Batch.{stats_at};
ghost use Rattle.deletion.specs.Inner.Layout.{layout_of};

use slots::limits::IDS;
use slots::scratch::MARKS;

// The counts of a slot's plan, a word each.
pub const COUNTS: usize = 4;

// Room for the candidates of a plan, 320 at most.
pub const PLAN_WORDS: usize = 640;

// Of all ids: two words, the counts and a plan for each.
const IDS_WORDS: usize = 2 * IDS as usize;

const STATS_WORDS: usize = COUNTS * IDS as usize;

const PLANS_WORDS: usize = PLAN_WORDS * IDS as usize;

// From `from` on lie the `count` slots that are emptied, as candidates; then the stats of each, and the candidates of its plan; from `base` on is room to apply
// the links of one plan.
#[derive(Clone, Copy)]
pub struct Layout {
    pub from: usize,
    pub count: usize,
    pub stats: usize,
    pub plans: usize,
    pub base: usize,
}

// The layout in the scratch of `capacity` slots, with no slot yet.
pub fn lay_out(capacity: usize) -> Layout
    requires { capacity ≤ 65536 }
    ensures { result ≡ layout_of capacity 0 }
{
    let from = MARKS + capacity;
    let stats = from + IDS_WORDS;
    let plans = stats + STATS_WORDS;
    Layout {
        from,
        count: 0,
        stats,
        plans,
        base: plans + PLANS_WORDS,
    }
}

// Where a delete on an index of this capacity leaves its stats.
pub fn stats_place(capacity: u32) -> usize
    ensures { result ≡ stats_at capacity }
{
    MARKS + capacity as usize + IDS_WORDS
}
