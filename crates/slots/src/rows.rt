// The rows of slots, read.
ghost use Rattle.std.specs.Prelude.{◌≡◌, ℕ, ◌+◌, ◌*◌, ◌<◌, ◌≤◌, List, Some, length};
ghost use Rattle.lists.specs.Lists.{elem};
ghost use Rattle.vectors.specs.Space.{Measure};
ghost use Rattle.slots.specs.Store.{refs_of, arrays};
ghost use Rattle.slots.specs.Inner.Rows.{RowShape, HasRow, ref_at};
ghost use Rattle.slots.specs.Lent.{rows_of};

use super::graph::Rows;

// The target of a blank reference: a word like the others, not a `None`, since C lends rows as words.
pub const BLANK: u32 = 4294967295;

impl Rows<'_> {
    // The reference at a place of slot `s`'s row: its target where it is live.
    pub fn live_at(&self, s: usize, place: usize) -> Option<u32>
        requires row_shape { RowShape self.now.degree self.now.targets.now self.now.edges.now self.now.versions.now self.now.marks.now }
        requires s_in_bounds { (s < length self.now.marks.now) × (place < self.now.degree) }
        ensures { (measure : Measure) (dim : ℕ) (vectors : List ℕ) → result ≡ ref_at (rows_of measure dim vectors self.now) s place }
    {
        let at = s * self.degree + place;
        let t = self.targets[at];
        let slot = t as usize;
        if slot < self.marks.len()
            && self.marks[slot] != 0
            && self.edges[at] == self.versions[slot]
        {
            return Some(t);
        }
        None
    }

    // The target at a place of slot `s`'s row, live or not: where `live_at` gives one, it is this.
    pub fn target_at(&self, s: usize, place: usize) -> u32
        requires { (s * self.now.degree + self.now.degree ≤ length self.now.targets.now) × (place < self.now.degree) }
        ensures { (measure : Measure) (dim : ℕ) (vectors edges versions marks : List ℕ) (t : ℕ) → Some t ≡ ref_at (arrays measure dim self.now.degree vectors self.now.targets.now edges versions marks) s place → t ≡ result }
    {
        self.targets[s * self.degree + place]
    }

    // Reads the first and the last target of slot `s`'s row and its first edge version, so that the row is on its way from memory when it is gone through.
    // Returns a sum that tells nothing.
    pub fn touch(&self, s: usize) -> u32
        requires { HasRow self.now.degree self.now.targets.now self.now.edges.now s }
        ensures { result ≤ 1020 }
    {
        if self.degree == 0 {
            return 0;
        }
        let first = s * self.degree;
        let last = first + (self.degree - 1);
        self.targets[first] % 256 + self.targets[last] % 256 + u32::from(self.edges[first] % 256)
    }

    // Whether slot `s`'s row holds `id` with its present version, live or dead.
    pub fn holds(&self, s: usize, id: u32) -> bool
        requires { HasRow self.now.degree self.now.targets.now self.now.edges.now s }
        ensures { (measure : Measure) (dim : ℕ) (vectors : List ℕ) → result ≡ elem id (refs_of (rows_of measure dim vectors self.now) s) }
    {
        if id == BLANK {
            return false;
        }
        let version = self.versions.get(id as usize).copied().unwrap_or(0);
        let first = s * self.degree;
        let end = first + self.degree;
        self.targets[first..end]
            .iter()
            .zip(self.edges[first..end].iter())
            .any(|(target, edge)| *target == id && *edge == version)
    }
}
