// Choosing landmarks from a sample: each candidate keeps its least distance to the references, so that one landmark costs one distance for each
// candidate that is left.
ghost use Rattle.std.specs.Prelude.{◌∷◌, ◌≡◌, ◌/◌, ◌≤◌, length};
ghost use Rattle.lists.specs.Lists.{All};
ghost use Rattle.vectors.specs.Space.{slot_distance};
ghost use Rattle.vectors.specs.Lent.{space_of, HasVector};
ghost use Rattle.candidates.specs.Inner.Words.{cands_of};
ghost use Rattle.landmarks.specs.Inner.Choices.{farthest, drawn, drawn_all, chosen, Listed, Drew, Fronted};

use candidates::{dist_at, id_at, put};
use distances::slot_distance;
use vectors::Space;

// The slot of the last candidate with the greatest distance. By a loop: the closures of `max_by_key` that read place `i` would carry contracts of their own
// that it is inside, and be no plainer.
fn farthest_id(list: &[u32]) -> u32
    ensures { result ≡ farthest (cands_of list.now) }
{
    let mut best: u32 = 0;
    let mut id: u32 = 0;
    for i in 0..list.len() / 2 {
        let dist = dist_at(list, i);
        if best <= dist {
            best = dist;
            id = id_at(list, i);
        }
    }
    id
}

// Slot `next` becomes a reference: it leaves the list, and the others' least distances fall. Returns how many are left, at the front.
fn draw_near(space: &Space<'_>, next: u32, list: &mut [u32]) -> usize
    requires { Listed space.now list.old (length list.old / 2) × HasVector space.now next }
    ensures { Drew list.old (length list.old / 2) (drawn (slot_distance (space_of space.now)) next (cands_of list.old)) list.new result }
{
    let mut m: usize = 0;
    for k in 0..list.len() / 2 {
        let dist = dist_at(list, k);
        let id = id_at(list, k);
        if id != next {
            let d = slot_distance(space, id as usize, next as usize);
            put(list, m, dist.min(d), id);
            m += 1;
        }
    }
    m
}

// `entry` and the slots `kept` become references of a list. Returns how many candidates are left, at the front.
pub fn draw_all(space: &Space<'_>, entry: u32, kept: &[u32], list: &mut [u32]) -> usize
    requires { Listed space.now list.old (length list.old / 2) × HasVector space.now entry × All (HasVector space.now) kept.now }
    ensures { Drew list.old (length list.old / 2) (drawn_all (slot_distance (space_of space.now)) (entry ∷ kept.now) (cands_of list.old)) list.new result }
{
    let mut m = draw_near(space, entry, list);
    for id in kept {
        m = draw_near(space, *id, &mut list[..2 * m]);
    }
    m
}

// Chooses `wanted` landmarks at most from the candidates of a list, and writes them to the front of another one. Returns how many they are.
pub fn choose(space: &Space<'_>, wanted: usize, landmarks: &mut [u32], list: &mut [u32]) -> usize
    requires { Listed space.now list.old (length list.old / 2) × (wanted ≤ length landmarks.old) }
    ensures { Fronted (chosen (slot_distance (space_of space.now)) wanted (cands_of list.old)) landmarks.old landmarks.new result }
{
    let mut m = list.len() / 2;
    for k in 0..wanted {
        if m == 0 {
            return k;
        }
        let left = &mut list[..2 * m];
        let next = farthest_id(left);
        landmarks[k] = next;
        m = draw_near(space, next, left);
    }
    wanted
}
