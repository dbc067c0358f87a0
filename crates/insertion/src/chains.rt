// What the plans of a chunk name, chained by slot: a head for each slot, and for each candidate the next one of its slot. All lies at places of
// the layout: heads, nexts, sources and candidates are read and written by turns.
ghost use Rattle.std.specs.Prelude.{◌≡◌, ℕ, ◌+◌, ◌≤◌, ◌<◌, length};
ghost use Rattle.insertion.specs.Inner.Chains.{head, Chainable, Chained, Takeable, Took};

use super::layout::Layout;
use slots::scratch::MARKS;

// Links the `n` candidates of the plans, where every head is `n`.
fn link(scratch: &mut [u32], at: Layout, n: u32, capacity: usize)
    requires { Chainable scratch.old at n capacity × ((t : ℕ) → t < capacity → head scratch.old t ≡ n) }
    ensures { Chained scratch.old at n capacity scratch.new }
{
    for k in (0..n).rev() {
        let j = k as usize;
        let head = MARKS + candidates::id_at(&scratch[at.plans..], j) as usize;
        scratch[at.nexts + j] = scratch[head];
        scratch[head] = k;
    }
}

// Chains the `n` candidates of the plans by slot; `n` is each chain's end.
pub fn chain(scratch: &mut [u32], at: Layout, n: u32, capacity: usize)
    requires { Chainable scratch.old at n capacity }
    ensures { Chained scratch.old at n capacity scratch.new }
{
    scratch[MARKS..MARKS + capacity].fill(n);
    link(scratch, at, n, capacity);
}

// Appends to the list, which has `m` candidates, those of the plans' `n` that name slot `t`, in their order, each with its source in place of the
// slot. Returns how many there are then.
pub fn take_incoming(scratch: &mut [u32], at: Layout, n: u32, t: usize, m: usize) -> usize
    requires { Takeable scratch.old at n t m }
    ensures { Took scratch.old at n t m result scratch.new }
{
    let mut r = m;
    let mut k = scratch[MARKS + t];
    // A `for` is no plainer: the chain is followed from one candidate to the next, not counted.
    while k < n {
        let j = k as usize;
        let dist = candidates::dist_at(&scratch[at.plans..], j);
        let source = scratch[at.sources + j];
        candidates::put(&mut scratch[at.list..], r, dist, source);
        r += 1;
        k = scratch[at.nexts + j];
    }
    r
}
