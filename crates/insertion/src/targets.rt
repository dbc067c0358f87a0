// The rows of the slots that the plans of a chunk name.
ghost use Rattle.std.specs.Prelude.{ℕ, ◌<◌, length};
ghost use Rattle.lists.specs.Lists.{foldl, range};
ghost use Rattle.insertion.specs.Inner.Targets.{renewed_at, Renewable};
ghost use Rattle.insertion.specs.Inner.Writing.{index_by, Written, Below};

use super::chains::take_incoming;
use super::layout::Plans;
use row::{Pruner, live_scored};
use slots::scratch::MARKS;

// Where one of the plans' candidates names slot `s`: prunes its row from its live references, then those that come in.
fn renew(pruner: &mut Pruner<'_, '_, '_, '_, '_, 0>, plans: &Plans<'_>, s: u32, scratch: &mut [u32])
    requires { (s < length pruner.old.marks.now) × Renewable pruner.old.rows.now.degree (length pruner.old.marks.now) scratch.old plans.now.at plans.now.n }
    ensures { ((entry : ℕ) → Written entry pruner.old (renewed_at scratch.old plans.now.at plans.now.n (index_by entry pruner.old) s) pruner.new) × Below plans.now.at.list scratch.old scratch.new }
{
    let t = s as usize;
    if plans.n <= scratch[MARKS + t] {
        return;
    }
    let at = plans.at;
    let graph = pruner.graph();
    let k = live_scored(&graph, s, &mut scratch[at.list..at.chosen]);
    let m = take_incoming(scratch, at, plans.n, t, k);
    let (front, out) = scratch.split_at_mut(at.chosen);
    pruner.write_pruned(s, &mut front[at.list..at.list + 2 * m], out);
}

// Works out and writes the row of each slot that a plan names, in one sweep over the slots.
pub fn write_named(
    pruner: &mut Pruner<'_, '_, '_, '_, '_, 0>,
    plans: &Plans<'_>,
    scratch: &mut [u32],
)
    requires { Renewable pruner.old.rows.now.degree (length pruner.old.marks.now) scratch.old plans.now.at plans.now.n }
    ensures { (entry : ℕ) → Written entry pruner.old (foldl (renewed_at scratch.old plans.now.at plans.now.n) (index_by entry pruner.old) (range 0 (length pruner.old.marks.now))) pruner.new }
{
    for s in 0..pruner.marks.len() {
        renew(pruner, plans, s as u32, scratch);
    }
}
