// Looking a key up.
ghost use Rattle.std.specs.Prelude.{length};
ghost use Rattle.sorting.specs.Inner.Places.{Placed, Risen, Below};

// How many of the places of `order`, which are sorted by their keys, have a key below `key`.
// Halved by hand: tried with `partition_point`, it takes 1.2 to 1.7 of the time, and each test of a list of numbers looks up each of them.
pub fn below(keys: &[u32], order: &[u32], key: u32) -> usize
    requires { Placed keys.now order.now (length order.now) × Risen keys.now order.now (length order.now) }
    ensures { Below keys.now order.now (length order.now) key result }
{
    let mut low: usize = 0;
    let mut high = order.len();
    while low < high {
        let mid = low + (high - low) / 2;
        let s = order[mid] as usize;
        if keys[s] < key {
            low = mid + 1;
        } else {
            high = mid;
        }
    }
    low
}
