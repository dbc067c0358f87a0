// The stats of a delete: four counts for each slot emptied, first as words, then as records. The words are some of those that C lends, from a place on.
ghost use Rattle.std.specs.Prelude.{◌≡◌, ◌+◌, ◌*◌, ◌≤◌, length};
ghost use Rattle.lists.specs.Lists.{put_front};
ghost use Rattle.deletion.specs.Batch.{record_of, records_of};

use super::layout::COUNTS;

// The counts of one emptied slot.
#[repr(C)]
#[derive(Clone, Copy)]
pub struct DeleteStats {
    pub outgoing_seeds: u32,
    pub recovered_in_neighbors: u32,
    pub repair_candidates: u32,
    pub repair_edges_attempted: u32,
}

// The counts that the four words from `at + 4 * i` on hold.
fn record_at(words: &[u32], at: usize, i: usize) -> DeleteStats
    requires { at + 4 * i + 4 ≤ length words.now }
    ensures { result ≡ record_of words.now at i }
{
    let p = at + COUNTS * i;
    DeleteStats {
        outgoing_seeds: words[p],
        recovered_in_neighbors: words[p + 1],
        repair_candidates: words[p + 2],
        repair_edges_attempted: words[p + 3],
    }
}

// Writes the `n` records that the words from `at` on hold to the front of `stats`.
pub fn write_stats(stats: &mut [DeleteStats], words: &[u32], at: usize, n: usize)
    requires { (n ≤ length stats.old) × (at + 4 * n ≤ length words.now) }
    ensures { stats.new ≡ put_front (records_of words.now at n) stats.old }
{
    for (i, record) in stats[..n].iter_mut().enumerate() {
        *record = record_at(words, at, i);
    }
}
