// The slots that a delete empties, and what becomes of their marks and the entry.
ghost use Rattle.std.specs.Prelude.{◌≡◌, ◌*◌, ◌<◌, ◌≤◌, length};
ghost use Rattle.lists.specs.Lists.{All};
ghost use Rattle.candidates.specs.Candidates as Candidates;
ghost use Rattle.candidates.specs.Candidates.{scored};
ghost use Rattle.candidates.specs.Inner.Words.{cands_of};
ghost use Rattle.deletion.specs.Inner.Naming.{Gathered, Risen, Listed, cleared, lowest_live, entry_after};

use candidates::{has_id, id_at, keep_first, put, sort_by_distance};
use slots::kill;
use slots::marks::is_valid;

// The live ones of `ids`, as candidates at the front of a list. Returns how many they are. Written by hand: with `filter` and `zip` over the words their number would
// still have to be counted, so that is no plainer.
fn gather(ids: &[u32], marks: &[u8], list: &mut [u32]) -> usize
    requires { 2 * length ids.now ≤ length list.old }
    ensures { Gathered marks.now ids.now result list.new }
{
    let mut n: usize = 0;
    for &id in ids {
        if is_valid(marks, id as usize) {
            put(list, n, id, id);
            n += 1;
        }
    }
    n
}

// Gives each candidate of a list its slot as its distance.
fn key(list: &mut [u32])
    ensures { cands_of list.new ≡ scored (λ x. x) (Candidates.ids (cands_of list.old)) }
{
    for k in 0..list.len() / 2 {
        let id = id_at(list, k);
        put(list, k, id, id);
    }
}

// Sorts a list by its slots and keeps each slot once. Returns how many are left, at the front.
pub fn sort_set(list: &mut [u32]) -> usize
    ensures { Risen list.old result list.new }
{
    key(list);
    sort_by_distance(list);
    keep_first(list, list.len() / 2)
}

// The slots that a delete of `ids` empties: the live ones, rising, each once, as candidates at the front of a list. Returns how many they are.
pub fn take_ids(ids: &[u32], marks: &[u8], list: &mut [u32]) -> usize
    requires { 2 * length ids.now ≤ length list.old }
    ensures { Listed marks.now ids.now result list.new }
{
    let n = gather(ids, marks, list);
    sort_set(&mut list[..2 * n])
}

// Marks the slots of a list dead.
pub fn clear(marks: &mut [u8], list: &[u32])
    requires { All (λ c. c.id < length marks.old) (cands_of list.now) }
    ensures { marks.new ≡ cleared marks.old (Candidates.ids (cands_of list.now)) }
{
    for k in 0..list.len() / 2 {
        kill(marks, id_at(list, k) as usize);
    }
}

// The lowest live slot; `entry` where none is live.
fn lowest(marks: &[u8], entry: u32) -> u32
    requires { length marks.now ≤ 65536 }
    ensures { result ≡ lowest_live marks.now entry }
{
    match marks.iter().position(|mark| *mark != 0) {
        Some(s) => s as u32,
        None => entry,
    }
}

// The entry once the slots of a list are dead.
pub fn new_entry(marks: &[u8], entry: u32, list: &[u32]) -> u32
    requires { length marks.now ≤ 65536 }
    ensures { result ≡ entry_after marks.now entry (Candidates.ids (cands_of list.now)) }
{
    if has_id(list, entry) {
        return lowest(marks, entry);
    }
    entry
}
