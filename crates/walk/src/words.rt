// What a walk keeps in the scratch (its map: slots::scratch): the list, and a mark for each slot, which is 0 before the slot is met, 1 when it is met and
// 2 when it is expanded. A mark takes two bits, so that a word has those of 16 slots. The words behind the marks are not touched.
ghost use Rattle.std.specs.Prelude.{◌≡◌, ◌+◌, ◌*◌, ◌%◌, ◌<◌, ◌≤◌, length};
ghost use Rattle.lists.specs.Lists.{Ordered};
ghost use Rattle.slots.specs.Scratch.{work_at};
ghost use Rattle.candidates.specs.Candidates.{before};
ghost use Rattle.candidates.specs.Inner.Words.{pair, cands, Small, Inserted};
ghost use Rattle.walk.specs.Inner.Scratch as Scratch;
ghost use Rattle.walk.specs.Inner.Scratch.{mark_word, put_mark, unmet, Cleared, LeftOut, Begun};

use candidates::{dist_at, id_at, insert_ordered, put};
use slots::scratch::MARKS;

// Marks are numbers and no enum, since they are bits of the lent words: the memory is fixed.
const MET: u32 = 1;

pub const EXPANDED: u32 = 2;

// A walk's words, and its list: how many candidates it holds at most and now, and how many of its first are known to be expanded.
#[derive(Drop)]
pub struct List<'w> {
    pub words: &'w mut [u32],
    pub beam: usize,
    pub count: usize,
    pub next: usize,
}

// The place of slot `s`'s mark in its word.
fn place_of(s: usize) -> u32
    ensures { result ≡ s % 16 }
{
    (s % 16) as u32
}

// The two bits at a place of a word.
fn field(place: u32, word: u32) -> u32
    requires { place < 16 }
    ensures { result ≡ Scratch.field place word }
{
    (word >> (2 * place)) % 4
}

// The word with `v` at a place.
fn put_field(place: u32, v: u32, word: u32) -> u32
    requires { (place < 16) × (v < 4) }
    ensures { result ≡ Scratch.put_field place v word }
{
    let old = field(place, word);
    word - (old << (2 * place)) + (v << (2 * place))
}

// The mark of slot `s`.
fn mark(scratch: &[u32], s: usize) -> u32
    requires { mark_word s < length scratch.now }
    ensures { result ≡ Scratch.mark scratch.now s }
{
    field(place_of(s), scratch[MARKS + s / 16])
}

// Marks slot `s`.
pub fn set_mark(scratch: &mut [u32], s: usize, v: u32)
    requires { (mark_word s < length scratch.old) × (v < 4) }
    ensures { scratch.new ≡ put_mark scratch.old s v }
{
    let at = MARKS + s / 16;
    scratch[at] = put_field(place_of(s), v, scratch[at]);
}

// Marks slot `s`, which is not met, as met: one sum, where `set_mark` reads and writes the two bits.
pub fn mark_met(scratch: &mut [u32], s: usize)
    requires { (mark_word s < length scratch.old) × (Scratch.mark scratch.old s ≡ 0) }
    ensures { scratch.new ≡ put_mark scratch.old s 1 }
{
    scratch[MARKS + s / 16] += MET << (2 * place_of(s));
}

// Whether slot `id` is inside and not met.
pub fn is_unmet(scratch: &[u32], capacity: usize, id: u32) -> bool
    requires { work_at capacity ≤ length scratch.now }
    ensures { result ≡ unmet capacity scratch.now id }
{
    let s = id as usize;
    s < capacity && mark(scratch, s) == 0
}

// Marks no slot as met.
fn clear(scratch: &mut [u32], capacity: usize)
    requires { work_at capacity ≤ length scratch.old }
    ensures { Cleared capacity scratch.old scratch.new }
{
    scratch[MARKS..MARKS + capacity.div_ceil(16)].fill(0);
}

// Marks those of `ids` that are slots as met, so that the walk leaves them out.
fn leave_out(scratch: &mut [u32], capacity: usize, ids: &[u32])
    requires { work_at capacity ≤ length scratch.old }
    ensures { LeftOut capacity ids.now scratch.old scratch.new }
{
    for id in ids {
        let s = *id as usize;
        if s < capacity {
            set_mark(scratch, s, MET);
        }
    }
}

// Puts the start into the list, alone, and marks it and `ids` as met.
pub fn begin(scratch: &mut [u32], capacity: usize, ids: &[u32], dist: u32, start: u32)
    requires { (work_at capacity ≤ length scratch.old) × (start < capacity) × (dist ≤ 16777216) }
    ensures { Begun capacity ids.now dist start scratch.old scratch.new }
{
    clear(scratch, capacity);
    leave_out(scratch, capacity, ids);
    set_mark(scratch, start as usize, MET);
    put(scratch, 0, dist, start);
}

// Inserts a candidate into the list of the first `n` of the words, which is in order. Returns its place. A function of its own: where a field's slice is lent in
// part, it was not proved what that leaves of the whole.
fn insert_first(words: &mut [u32], n: usize, dist: u32, id: u32) -> usize
    requires { (2 * (n + 1) ≤ length words.old) × (dist ≤ 16777216) × Small (cands words.old 0 n) × Ordered before (cands words.old 0 n) }
    ensures { Inserted words.old 0 n (pair dist id) result words.new }
{
    insert_ordered(&mut words[..2 * (n + 1)], dist, id)
}

impl List<'_> {
    ghost use Rattle.std.specs.Prelude.{None, Some, ◌≡◌, ℕ, ◌*◌, ◌<◌, ◌≤◌, length};
    ghost use Rattle.candidates.specs.Inner.Words.{pair, cand, cands};
    ghost use Rattle.walk.specs.Walk as Walk;
    ghost use Rattle.walk.specs.Inner.Scratch.{Listed, Scannable, Entered, Unexpanded, Next};
    ghost use Rattle.walk.specs.Inner.Searching.{SameWords};

    // The place of the first candidate whose slot is not expanded.
    fn unexpanded(&self) -> Option<usize>
        requires { Scannable self.now.words.now self.now.count self.now.next }
        ensures { (result ≡ None → Unexpanded self.now.words.now self.now.count self.now.count) × ((i : ℕ) → result ≡ Some i → Unexpanded self.now.words.now self.now.count i × (i < self.now.count)) }
    {
        (self.next..self.count).find(|&i| mark(self.words, id_at(self.words, i) as usize)
            != EXPANDED)
    }

    // Whether the walk ends before candidate `i` is expanded: the list is full, and the candidate is not nearer than the worst.
    fn ends(&self, i: usize) -> bool
        requires { (i < self.now.count) × (2 * self.now.count ≤ length self.now.words.now) }
        ensures { result ≡ Walk.ends self.now.beam (cands self.now.words.now 0 self.now.count) (cand self.now.words.now (2 * i)) }
    {
        let n = self.count;
        self.beam <= n && dist_at(self.words, n - 1) <= dist_at(self.words, i)
    }

    // The place of the candidate that is expanded next, if the walk does not end.
    pub fn to_expand(&self) -> Option<usize>
        requires { Scannable self.now.words.now self.now.count self.now.next }
        ensures { (result ≡ None → Next self.now.beam self.now.words.now self.now.count self.now.count) × ((i : ℕ) → result ≡ Some i → Next self.now.beam self.now.words.now self.now.count i × (i ≡ self.now.count → ⊥)) }
    {
        let i = self.unexpanded()?;
        if self.ends(i) {
            return None;
        }
        Some(i)
    }

    // A candidate enters the list where there is room, or where it is nearer than the worst, which leaves.
    pub fn enter(&mut self, dist: u32, id: u32)
        requires { Listed self.old.beam self.old.words.now self.old.count × (self.old.next ≤ self.old.count) × (dist ≤ 16777216) }
        ensures { Entered self.old.beam self.old.words.now self.old.count self.old.next (pair dist id) self.new.words.now self.new.count self.new.next × SameWords self.old self.new }
    {
        let n = self.count;
        if n < self.beam {
            let place = insert_first(self.words, n, dist, id);
            self.count = n + 1;
            self.next = place.min(self.next);
            return;
        }
        let last = n - 1;
        let words = &mut *self.words;
        if dist_at(words, last) <= dist {
            return;
        }
        let place = insert_first(words, last, dist, id);
        self.next = place.min(self.next);
    }
}
