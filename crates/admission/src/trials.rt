// Trial walks: whether landmarks are met with nothing left out, and with the slots that are to be deleted left out.
ghost use Rattle.std.specs.Prelude.{false, [], ◌≡◌, ◌<◌, ◌≤◌, length};
ghost use Rattle.lists.specs.Lists.{All, elem};
ghost use Rattle.slots.specs.Lent.{graph_of};
ghost use Rattle.admission.specs.Inner.Trials.{meets, Walks, Tried};

use candidates::has_id;
use slots::Graph;
use walk::residual_search;

// A trial walk begins at `entry` and keeps `beam` candidates.
#[derive(Clone, Copy)]
pub struct Trial<'a> {
    pub graph: Graph<'a>,
    pub entry: u32,
    pub beam: usize,
}

impl Trial<'_> {
    // Whether the walk that leaves `ids` out finds the landmark.
    fn reaches(&self, ids: &[u32], landmark: u32, scratch: &mut [u32]) -> bool
        requires walks { Walks (graph_of self.now.graph) self.now.entry self.now.beam scratch.old }
        requires ids_value { (elem self.now.entry ids.now ≡ false) × (landmark < length self.now.graph.rows.marks.now) }
        ensures { result ≡ meets (graph_of self.now.graph) ids.now self.now.beam self.now.entry landmark }
    {
        let query = self.graph.space.vector(landmark as usize);
        let n = residual_search(&self.graph, query, self.entry, self.beam, ids, scratch);
        has_id(&scratch[..2 * n], landmark)
    }
}

// How many landmarks are met at baseline, how many with the slots left out, and how many are lost.
#[derive(Clone, Copy, Default)]
pub struct Trials {
    pub baseline: u32,
    pub residual: u32,
    pub lost: u32,
}

// Both trial walks for each landmark of a list. Those that are met before and not after are lost, and written to `lost`.
pub fn run_trials(
    trial: &Trial<'_>,
    ids: &[u32],
    list: &[u32],
    lost: &mut [u32],
    scratch: &mut [u32],
) -> Trials
    requires walks { Walks (graph_of trial.now.graph) trial.now.entry trial.now.beam scratch.old }
    requires ids_value { (elem trial.now.entry ids.now ≡ false) × (length list.now ≤ length lost.old) × (length list.now ≤ 1024) × All (λ l. l < length trial.now.graph.rows.marks.now) list.now }
    ensures { Tried (meets (graph_of trial.now.graph) [] trial.now.beam trial.now.entry) (meets (graph_of trial.now.graph) ids.now trial.now.beam trial.now.entry) list.now lost.old lost.new result.baseline result.residual result.lost }
{
    let mut t = Trials::default();
    for landmark in list {
        let before = trial.reaches(&[], *landmark, scratch);
        let after = trial.reaches(ids, *landmark, scratch);
        t.baseline += u32::from(before);
        t.residual += u32::from(after);
        if before && !after {
            lost[t.lost as usize] = *landmark;
            t.lost += 1;
        }
    }
    t
}
