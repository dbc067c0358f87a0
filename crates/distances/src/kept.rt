// Distances that are kept, so that each is worked out once.
ghost use Rattle.std.specs.Prelude.{◌+◌, ◌*◌, ◌<◌};
ghost use Rattle.vectors.specs.Lent.{space_of};
ghost use Rattle.distances.specs.Inner.Kept.{Keeps};

use super::slot_distance;
use vectors::Space;

// How many entries a table has that keeps distances.
pub const KEPT: usize = 8192;

// A pair of slots as one number, and their distance.
#[derive(Clone, Copy)]
struct Entry {
    pair: u32,
    dist: u32,
}

// The vectors of all slots, and a table of `N` distances of them. Where `N` is 0, none is kept. That such a table has a size at all (`sized`) is a field, since
// a reference to one does not say so.
#[derive(Drop)]
pub struct Kept<'a, const N: usize> {
    pub space: Space<'a>,
    entries: [Entry; N],
    pub ghost sized: { 48 + N * 8 < 9223372036854775808 },
    ghost keeps: { Keeps (space_of space) entries },
}

impl<'a, const N: usize> Kept<'a, N> {
    ghost use Rattle.std.specs.Prelude.{◌≡◌, ◌<◌, ◌≤◌};
    ghost use Rattle.vectors.specs.Space.{slot_distance, Measured};
    ghost use Rattle.vectors.specs.Lent.{space_of, HasVector};

    // A table with no distance but that of slot 0 to itself.
    pub fn new(space: Space<'a>) -> Self
        ensures { result.space ≡ space.entry }
    {
        Kept {
            space,
            entries: [Entry { pair: 0, dist: 0 }; N],
        }
    }

    // The distance of the vectors of two slots: where the table has it, it is read there, else it is worked out and kept.
    pub fn slot_distance(&mut self, x: u32, y: u32) -> u32
        requires { HasVector self.old.space x × HasVector self.old.space y × (self.old.space.dim ≤ 256) × (x < 65536) × (y < 65536) }
        ensures { Measured (slot_distance (space_of self.old.space) x y) result × (self.new.space ≡ self.old.space) }
    {
        if N == 0 {
            return slot_distance(&self.space, x as usize, y as usize);
        }
        let i = (x * 31 + y) as usize % N;
        let pair = x * 65536 + y;
        let entry = self.entries[i];
        if entry.pair == pair {
            return entry.dist;
        }
        let dist = slot_distance(&self.space, x as usize, y as usize);
        self.entries[i] = Entry { pair, dist };
        dist
    }
}
