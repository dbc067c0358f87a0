// A pruner writes rows, each a selection of the candidates that it is given.
ghost use Rattle.vectors.specs.Lent.{measure_of};
ghost use Rattle.slots.specs.Lent.{rows_mut_of};
ghost use Rattle.row.specs.Row.{Together};

use super::write_packed;
use distances::Kept;
use slots::{Graph, RowsMut};

// What rows are selected with: rows beside vectors and marks, and distances that are kept meanwhile. A lifetime each: with one for all, whoever makes it would ask
// its callers for that one.
#[derive(Drop)]
pub struct Pruner<'k, 's, 'r, 'a, 'm, const N: usize> {
    pub alpha: f32,
    pub kept: &'k mut Kept<'s, N>,
    pub rows: &'a mut RowsMut<'r>,
    pub marks: &'m [u8],
    pub ghost together: { Together (rows_mut_of (measure_of kept.now.space.weights) kept.now.space.dim kept.now.space.vectors.now rows.now marks.now) },
}

impl<const N: usize> Pruner<'_, '_, '_, '_, '_, N> {
    ghost use Rattle.std.specs.Prelude.{◌≡◌, ◌*◌, ◌<◌, ◌≤◌, length, drop};
    ghost use Rattle.slots.specs.Lent.{graph_of};
    ghost use Rattle.candidates.specs.Inner.Words.{cands_of, Small};
    ghost use Rattle.row.specs.Row.{WrotePruned};
    ghost use Rattle.row.specs.Lent.{held, SamePruner};

    // The graph as it stands.
    pub fn graph(&self) -> Graph<'_>
        ensures { graph_of result ≡ held self.now }
    {
        let space = self.kept.space;
        let marks = self.marks;
        let rows = &*self.rows;
        rows.graph(space, marks)
    }

    // Selects from a list, which it rearranges, and writes the selection as the row of slot `s`. The selection is laid out at the front of `out`, and words behind
    // those of a whole row stay. Distances that the table `kept` has are read there.
    pub fn write_pruned(&mut self, s: u32, list: &mut [u32], out: &mut [u32])
        requires { (s < length self.old.marks.now) × Small (cands_of list.old) × (2 * self.old.rows.now.degree ≤ length out.old) }
        ensures { WrotePruned self.old.alpha (held self.old) s (cands_of list.old) (held self.new) × SamePruner self.old self.new
            × (drop (2 * self.old.rows.now.degree) out.new ≡ drop (2 * self.old.rows.now.degree) out.old) }
    {
        let alpha = self.alpha;
        let marks = self.marks;
        let rows = &mut *self.rows;
        let kept = &mut *self.kept;
        let room = 2 * rows.degree;
        let r = prune::prune_scored(alpha, kept, marks, s, list, &mut out[..room]);
        write_packed(rows, s, &mut out[..2 * r], 0);
    }
}
