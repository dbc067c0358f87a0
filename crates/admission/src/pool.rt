// The landmark pool: choosing it, how many of it are live, and those of it that stay when some slots are to be deleted.
ghost use Rattle.std.specs.Prelude.{◌≡◌, ◌≤◌, length, take};
ghost use Rattle.lists.specs.Lists.{filter};
ghost use Rattle.vectors.specs.Lent.{measure_of};
ghost use Rattle.slots.specs.Store.{is_valid};
ghost use Rattle.landmarks.specs.Inner.Samples.{remains};
ghost use Rattle.landmarks.specs.Inner.Choices.{Fronted};
ghost use Rattle.admission.specs.Inner.Pools.{Poolable, Pooled};

use guard::Config;
use landmarks::{Free, select_landmarks, stays};
use slots::marks::is_valid;
use vectors::Space;

// The landmark pool of a guard that is enabled, from the residual entry, written to the front of `pool`. Returns its length.
pub fn landmark_pool(
    space: &Space<'_>,
    marks: &[u8],
    entry: u32,
    settings: Config<usize>,
    pool: &mut [u32],
    scratch: &mut [u32],
) -> usize
    requires { Poolable (measure_of space.now.weights) space.now.dim space.now.vectors.now marks.now entry settings.count settings.multiplier settings.sample pool.old scratch.old }
    ensures { Pooled (measure_of space.now.weights) space.now.dim space.now.vectors.now marks.now entry settings.count settings.multiplier settings.sample pool.old pool.new result }
{
    let free = Free {
        marks,
        ids: &[],
        entry,
        kept: &[],
    };
    let wanted = settings.count * settings.multiplier;
    select_landmarks(space, &free, wanted, settings.sample, pool, scratch)
}

// How many landmarks of the pool are live.
pub fn live_landmarks(marks: &[u8], pool: &[u32]) -> u32
    requires { length pool.now ≤ 1024 }
    ensures { result ≡ length (filter (is_valid marks.now) pool.now) }
{
    let live = pool.iter().filter(|id| is_valid(marks, **id as usize));
    live.count() as u32
}

// Writes those landmarks of the pool that stay when `ids` are deleted to the front of a list, `count` at most. Returns how many they are. `count` comes beside the
// list, and not as its length: the caller writes more landmarks behind these, so it needs the whole list afterwards.
pub fn keep_landmarks(
    marks: &[u8],
    ids: &[u32],
    pool: &[u32],
    count: usize,
    list: &mut [u32],
) -> usize
    requires { count ≤ length list.old }
    ensures { Fronted (take count (filter (remains marks.now ids.now) pool.now)) list.old list.new result }
{
    let mut m: usize = 0;
    for id in pool {
        if m == count {
            return m;
        }
        if stays(marks, ids, *id) {
            list[m] = *id;
            m += 1;
        }
    }
    m
}
