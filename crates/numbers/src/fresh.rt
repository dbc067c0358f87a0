// Whether a number of a list is 0 or stands twice, with no lent memory: part by part, in an order of fixed length.
ghost use Rattle.std.specs.Prelude.{[], ◌≡◌, ◌+◌, ◌≤◌, ◌<◌, length};
ghost use Rattle.numbers.specs.Numbers.{taken};
ghost use Rattle.numbers.specs.Inner.Chunks.{Chunk, Later, Checked};

use super::fits::falls;
use super::naming::place;
use super::summary::count_up;
use sorting::sort;

// Whether a place behind the chunk has the number of one in it. `a`, where the chunk begins, stands beside the list: the places in `order` count from the front of it.
fn again_later(given: &[u32], order: &[u32], a: usize) -> bool
    requires { Chunk given.now order.now a (length order.now) }
    ensures { Later given.now order.now a (length order.now) result }
{
    given[a + order.len()..]
        .iter()
        .any(|number| place(given, order, *number).is_some())
}

// Whether one of as many places from `a` on as `order` is long has 0, or a number that stands later again.
fn chunk_repeats(given: &[u32], order: &mut [u32], a: usize) -> bool
    requires { (a + length order.old ≤ length given.now) × (length given.now ≤ 65536) }
    ensures { Checked given.now a (length order.old) result }
{
    count_up(order, a);
    sort(given, order);
    falls(given, order) || again_later(given, order, a)
}

// Whether a number is 0 or stands twice; `order` holds the places of one part at a time.
fn repeated_by(given: &[u32], order: &mut [u32]) -> bool
    requires { (0 < length order.old) × (length given.now ≤ 65536) }
    ensures { result ≡ taken [] given.now }
{
    let size = order.len();
    for part in 0..given.len().div_ceil(size) {
        let a = part * size;
        let n = size.min(given.len() - a);
        if chunk_repeats(given, &mut order[..n], a) {
            return true;
        }
    }
    false
}

// Whether a number is 0 or stands twice.
pub fn repeated(given: &[u32]) -> bool
    requires { length given.now ≤ 65536 }
    ensures { result ≡ taken [] given.now }
{
    let mut order: [u32; 4096] = [0; 4096];
    repeated_by(given, &mut order)
}
