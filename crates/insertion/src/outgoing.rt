// The outgoing rows of a chunk: those of the new slots that no plan names. A slot that one names gets its row as a target.
ghost use Rattle.std.specs.Prelude.{ℕ, ◌+◌, ◌-◌, ◌*◌, ◌<◌, length};
ghost use Rattle.lists.specs.Lists.{foldl, range};
ghost use Rattle.candidates.specs.Inner.Words.{cands};
ghost use Rattle.insertion.specs.Inner.Outgoing.{own_row, own_at, OwnRow, OutgoingRows};
ghost use Rattle.insertion.specs.Inner.Writing.{index_by, Written, Below};

use super::layout::Plans;
use row::{Pruner, write_ids};
use slots::scratch::MARKS;

// Writes the slots of the plans' candidates from `b` up to `e` as the row of slot `s`, unless one of all candidates names it.
fn write_unnamed(
    pruner: &mut Pruner<'_, '_, '_, '_, '_, 0>,
    plans: &Plans<'_>,
    s: u32,
    b: usize,
    e: usize,
    scratch: &mut [u32],
)
    requires { (s < length pruner.old.marks.now) × OwnRow pruner.old.rows.now.degree s scratch.old plans.now.at b e }
    ensures { ((entry : ℕ) → Written entry pruner.old (own_row scratch.old plans.now.n (cands scratch.old (plans.now.at.plans + 2 * b) (e - b)) (index_by entry pruner.old) s) pruner.new) × Below plans.now.at.chosen scratch.old scratch.new }
{
    let at = plans.at;
    if plans.n <= scratch[MARKS + s as usize] {
        let (words, to) = scratch.split_at_mut(at.chosen);
        write_ids(
            pruner.rows,
            s,
            &words[at.plans + 2 * b..at.plans + 2 * e],
            to,
        );
    }
}

// Writes the rows of those slots of a chunk that no plan names.
pub fn write_outgoing(
    pruner: &mut Pruner<'_, '_, '_, '_, '_, 0>,
    plans: &Plans<'_>,
    scratch: &mut [u32],
)
    requires { OutgoingRows pruner.old.rows.now.degree (length pruner.old.marks.now) plans.now.slots.now scratch.old plans.now.at plans.now.n }
    ensures { ((entry : ℕ) → Written entry pruner.old (foldl (own_at scratch.old plans.now.at plans.now.n plans.now.slots.now) (index_by entry pruner.old) (range 0 (length plans.now.slots.now))) pruner.new) × Below plans.now.at.chosen scratch.old scratch.new }
{
    let mut b: usize = 0;
    for (i, &s) in plans.slots.iter().enumerate() {
        let e = scratch[plans.at.ends + i] as usize;
        write_unnamed(pruner, plans, s, b, e, scratch);
        b = e;
    }
}
