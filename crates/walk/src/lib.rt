// The walk over the graph, in lent words: `graph_search`, the same with some slots left out, and `search_pool`.
#![tactic(auto)]

mod words;

ghost use Rattle.std.specs.Prelude.{false, ◌≡◌, List, ℕ, ◌+◌, ◌*◌, max, ◌<◌, ◌≤◌, length, take};
ghost use Rattle.lists.specs.Lists.{elem};
ghost use Rattle.vectors.specs.Lent.{HasVector};
ghost use Rattle.slots.specs.Scratch.{work_at};
ghost use Rattle.slots.specs.Lent.{graph_of};
ghost use Rattle.walk.specs.Inner.Scratch.{near_of, near_but, mark_word, mark, with_fresh, expands, takes_turns, Walkable, Fresh, UnmetAt, Added, Gathers, Stepped, Ready, Found, Pool};

use candidates::id_at;
use distances::{query_distance, touch_vector};
use slots::Graph;
use slots::marks::is_valid;
use vectors::Space;
use words::{EXPANDED, List};

// How many places of a row are gathered at once, at most.
const FRESH: usize = 64;

// More than what is touched for a part of a row sums up to.
const TOUCHED: u32 = 1048576;

// A search: the graph that is walked, and the query.
#[derive(Clone, Copy)]
struct Search<'a> {
    graph: Graph<'a>,
    query: &'a [u8],
    ghost query_long: { length query.now ≡ graph.space.dim },
}

// The reference at a place of slot `s`'s row, where it is live and leads to a slot that is not met. What is met needs no further test.
fn unmet_at(graph: &Graph<'_>, s: usize, place: usize, scratch: &[u32]) -> Option<u32>
    requires { (s < length graph.now.rows.marks.now) × (place < graph.now.rows.degree) × (work_at (length graph.now.rows.marks.now) ≤ length scratch.now) }
    ensures { UnmetAt (graph_of graph.now) s place scratch.now result }
{
    let rows = graph.rows;
    let t = rows.target_at(s, place);
    if words::is_unmet(scratch, rows.marks.len(), t) {
        return rows.live_at(s, place);
    }
    None
}

// Marks slot `id`, which is not met, as met and writes it behind the `n` slots of `fresh`, whose number changes at each turn. Touches its vector.
fn add(space: &Space<'_>, id: u32, n: usize, scratch: &mut [u32], fresh: &mut [u32]) -> u32
    requires has_vector { HasVector space.now id }
    requires id_in_bounds { (mark_word id < length scratch.old) × (mark scratch.old id ≡ 0) × (n < length fresh.old) }
    ensures { Added id n scratch.old fresh.old scratch.new fresh.new × (result ≤ 1020) }
{
    let s = id as usize;
    words::mark_met(scratch, s);
    fresh[n] = id;
    touch_vector(space, s)
}

// Gathers the slots of slot `s`'s row that are live and not met, from place `from` up to `to`. Returns how many they are. What is
// touched counts for nothing, nor does `ahead`, which was touched before: but the compiler, which does not know that, reads it.
// Seven parameters: slot, places, words and list are others at each call, so a struct of them would be made for each.
fn gather(
    graph: &Graph<'_>,
    s: usize,
    from: usize,
    to: usize,
    ahead: u32,
    scratch: &mut [u32],
    fresh: &mut [u32],
) -> usize
    requires marks_in_bounds { (work_at (length graph.now.rows.marks.now) ≤ length scratch.old) × (length fresh.old ≡ 64) }
    requires s_in_bounds { (s < length graph.now.rows.marks.now) × (from ≤ to) × (to ≤ graph.now.rows.degree) × (to ≤ from + 64) × (ahead ≤ 1020) }
    ensures { Gathers (graph_of graph.now) s from to scratch.old scratch.new fresh.new result }
{
    let mut n: usize = 0;
    let mut touched = ahead;
    for place in from..to {
        if let Some(t) = unmet_at(graph, s, place, scratch) {
            touched += add(&graph.space, t, n, scratch, fresh);
            n += 1;
        }
    }
    n + (touched / TOUCHED) as usize
}

impl Search<'_> {
    ghost use Rattle.std.specs.Prelude.{◌≡◌, ◌<◌, ◌≤◌, length};
    ghost use Rattle.slots.specs.Lent.{graph_of};
    ghost use Rattle.walk.specs.Inner.Scratch.{with_fresh, expands, takes_turns, Fresh};
    ghost use Rattle.walk.specs.Inner.Searching.{Goes, Steps};

    // Touches the row of the candidate behind `list.next`, which is often the one that is expanded next.
    fn touch_next(&self, list: &List<'_>) -> u32
        requires { Goes self.now list.now × (list.now.next < list.now.count) }
        ensures { result ≤ 1020 }
    {
        let i = list.next + 1;
        if i < list.count {
            return self.graph.rows.touch(id_at(list.words, i) as usize);
        }
        0
    }

    // The slots of `fresh` enter the list, each at its distance.
    fn enter_all(&self, list: &mut List<'_>, fresh: &[u32])
        requires { Goes self.now list.old × Fresh (length self.now.graph.rows.marks.now) list.old.words.now list.old.count fresh.now }
        ensures { Steps self.now list.old (with_fresh (graph_of self.now.graph) self.now.query.now list.old.beam list.old.words.now list.old.count fresh.now) list.new }
    {
        for id in fresh {
            let dist = query_distance(&self.graph.space, self.query, *id as usize);
            list.enter(dist, *id);
        }
    }

    // Expands the candidate at `list.next`: its slot is marked, and its live neighbours are met in row order.
    fn expand(&self, list: &mut List<'_>, fresh: &mut [u32])
        requires { Goes self.now list.old × (list.old.next < list.old.count) × (length fresh.old ≡ 64) }
        ensures { Steps self.now list.old (expands (graph_of self.now.graph) self.now.query.now list.old.beam list.old.words.now list.old.count list.old.next) list.new }
    {
        let ahead = self.touch_next(list);
        let next = list.next;
        let words = &mut *list.words;
        let s = id_at(words, next) as usize;
        words::set_mark(words, s, EXPANDED);
        let degree = self.graph.rows.degree;
        for from in (0..degree).step_by(FRESH) {
            let to = from + FRESH.min(degree - from);
            let n = gather(&self.graph, s, from, to, ahead, list.words, fresh);
            self.enter_all(list, &fresh[..n]);
        }
    }

    // The turns of the walk: as many as there are slots at most, since each expands another one.
    fn take_turns(&self, list: &mut List<'_>)
        requires { Goes self.now list.old }
        ensures { Steps self.now list.old (takes_turns (graph_of self.now.graph) self.now.query.now list.old.beam list.old.words.now list.old.count) list.new }
    {
        let mut fresh = [0u32; FRESH];
        for _ in 0..self.graph.rows.marks.len() {
            let Some(i) = list.to_expand() else {
                return;
            };
            list.next = i;
            self.expand(list, &mut fresh);
        }
    }
}

// The walk from `start` that leaves the slots of `ids` out; these may be any numbers. Returns how many candidates it found.
pub fn residual_search(
    graph: &Graph<'_>,
    query: &[u8],
    start: u32,
    beam: usize,
    ids: &[u32],
    scratch: &mut [u32],
) -> usize
    requires ready { Ready (graph_of graph.now) query.now start beam scratch.old }
    requires ids_value { elem start ids.now ≡ false }
    ensures { Found (graph_of graph.now) query.now (near_but ids.now) start beam scratch.old scratch.new result }
{
    let dist = query_distance(&graph.space, query, start as usize);
    words::begin(scratch, graph.rows.marks.len(), ids, dist, start);
    let search = Search {
        graph: *graph,
        query,
    };
    let mut list = List {
        words: scratch,
        beam: beam.max(1),
        count: 1,
        next: 0,
    };
    search.take_turns(&mut list);
    list.count
}

// The walk from `start`: its candidates, nearest first, from word 0 of `scratch` on. Returns how many they are.
pub fn graph_search(
    graph: &Graph<'_>,
    query: &[u8],
    start: u32,
    beam: usize,
    scratch: &mut [u32],
) -> usize
    requires { Ready (graph_of graph.now) query.now start beam scratch.old }
    ensures { Found (graph_of graph.now) query.now near_of start beam scratch.old scratch.new result }
{
    residual_search(graph, query, start, beam, &[], scratch)
}

// The walk from the entry; nothing where the entry is dead.
pub fn search_pool(
    graph: &Graph<'_>,
    query: &[u8],
    entry: u32,
    beam: usize,
    scratch: &mut [u32],
) -> usize
    requires { Ready (graph_of graph.now) query.now entry beam scratch.old }
    ensures { Pool (graph_of graph.now) query.now entry beam scratch.old scratch.new result }
{
    if is_valid(graph.rows.marks, entry as usize) {
        return graph_search(graph, query, entry, beam, scratch);
    }
    0
}
