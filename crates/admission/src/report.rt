// The report on a deletion.
ghost use Rattle.std.specs.Prelude.{false, ◌&&◌, [], ◌≡◌, ◌<◌, ◌≤◌, eqb, ltb, length};
ghost use Rattle.lists.specs.Lists.{filter, elem, sorted_set};
ghost use Rattle.vectors.specs.Space.{slot_distance, space};
ghost use Rattle.vectors.specs.Lent.{measure_of};
ghost use Rattle.slots.specs.Store.{is_valid};
ghost use Rattle.slots.specs.Lent.{graph_of};
ghost use Rattle.landmarks.specs.Inner.Samples.{remains};
ghost use Rattle.landmarks.specs.Inner.Choices.{landmarks_by};
ghost use Rattle.admission.specs.Inner.Trials.{meets};
ghost use Rattle.admission.specs.Lent.{SameLists};
ghost use Rattle.admission.specs.Inner.Reports.{probe_by, Reports, Assessable, Checkable, Checks, Assessed};

use super::entry::residual_entry;
use super::pool::keep_landmarks;
use super::trials::{Trial, run_trials};
use guard::Config;
use landmarks::{Free, select_landmarks, stays};
use slots::Graph;

// A report without its two lists: `checked` and `lost` are how many they hold. Without a landmark looked at, it has no entry. `admitted` stands beside the numbers,
// and not in an enum of two reports: document 01's report has it so, and C gets it so.
#[derive(Clone, Copy, Default)]
pub struct Report {
    pub admitted: bool,
    pub requested: u32,
    pub entry: Option<u32>,
    pub checked: u32,
    pub baseline: u32,
    pub residual: u32,
    pub lost: u32,
    pub supplemental: u32,
}

// The lists that a report is written to: the landmarks checked, and those lost.
#[derive(Drop)]
pub struct Lists<'a> {
    pub checked: &'a mut [u32],
    pub lost: &'a mut [u32],
}

// How many slots the live ones of `ids` are: each is counted where it stands first. By a loop: a chain's closure that reads `ids[..i]` would carry a contract of its
// own that `i` is inside, and be no plainer.
fn count_named(marks: &[u8], ids: &[u32]) -> u32
    requires { length ids.now ≤ 256 }
    ensures { result ≡ length (sorted_set (filter (is_valid marks.now) ids.now)) }
{
    let mut n: u32 = 0;
    for i in 0..ids.len() {
        n += u32::from(stays(marks, &ids[..i], ids[i]));
    }
    n
}

// A deletion is admitted where some landmark is met at baseline and none is lost.
fn is_admitted(baseline: u32, lost: u32) -> bool
    ensures { result ≡ (ltb 0 baseline && eqb lost 0) }
{
    0 < baseline && lost == 0
}

// Chooses the landmarks that a report checks: those of the pool that stay when `ids` are deleted, and others where these are fewer. They are written to the front
// of `checked`. Returns how many they are, and how many of them are others.
fn check_landmarks(
    trial: &Trial<'_>,
    settings: Config<usize>,
    pool: &[u32],
    ids: &[u32],
    checked: &mut [u32],
    scratch: &mut [u32],
) -> (usize, usize)
    requires { Checkable (length trial.now.graph.rows.marks.now) trial.now.entry settings.count settings.sample checked.old scratch.old }
    ensures { Checks (length trial.now.graph.rows.marks.now) (remains trial.now.graph.rows.marks.now ids.now) (λ wanted existing. landmarks_by (slot_distance (space (measure_of trial.now.graph.space.weights) trial.now.graph.space.dim trial.now.graph.space.vectors.now)) (remains trial.now.graph.rows.marks.now ids.now) (length trial.now.graph.rows.marks.now) trial.now.entry wanted settings.sample existing) settings.count pool.now checked.old checked.new result.0 result.1 }
{
    let marks = trial.graph.rows.marks;
    let count = settings.count;
    let kept = keep_landmarks(marks, ids, pool, count, checked);
    let (front, rest) = checked.split_at_mut(kept);
    let free = Free {
        marks,
        ids,
        entry: trial.entry,
        kept: front,
    };
    let more = select_landmarks(
        &trial.graph.space,
        &free,
        count - kept,
        settings.sample,
        rest,
        scratch,
    );
    (kept + more, more)
}

// The report of trial walks, but for how many slots the deletion names: 0 of them here.
fn probe(
    trial: &Trial<'_>,
    settings: Config<usize>,
    pool: &[u32],
    ids: &[u32],
    lists: &mut Lists<'_>,
    scratch: &mut [u32],
) -> Report
    requires assessable { Assessable (graph_of trial.now.graph) settings.count settings.sample trial.now.beam pool.now (length pool.now) ids.now lists.old.checked.now lists.old.lost.now scratch.old }
    requires start_in_bounds { (trial.now.entry < length trial.now.graph.rows.marks.now) × (elem trial.now.entry ids.now ≡ false) }
    ensures { Reports (probe_by (remains trial.now.graph.rows.marks.now ids.now) (meets (graph_of trial.now.graph) [] trial.now.beam trial.now.entry) (meets (graph_of trial.now.graph) ids.now trial.now.beam trial.now.entry) (λ wanted existing. landmarks_by (slot_distance (space (measure_of trial.now.graph.space.weights) trial.now.graph.space.dim trial.now.graph.space.vectors.now)) (remains trial.now.graph.rows.marks.now ids.now) (length trial.now.graph.rows.marks.now) trial.now.entry wanted settings.sample existing) settings.count pool.now 0 trial.now.entry) lists.old.checked.now lists.new.checked.now lists.old.lost.now lists.new.lost.now result × SameLists lists.old lists.new }
{
    let checked = &mut *lists.checked;
    let lost = &mut *lists.lost;
    let (n, more) = check_landmarks(trial, settings, pool, ids, checked, scratch);
    // Read whole first: by `&checked[..n]` the proof would not know what `lists.checked` is at the end.
    let list: &[u32] = checked;
    let t = run_trials(trial, ids, &list[..n], lost, scratch);
    Report {
        admitted: is_admitted(t.baseline, t.lost),
        requested: 0,
        entry: Some(trial.entry),
        checked: n as u32,
        baseline: t.baseline,
        residual: t.residual,
        lost: t.lost,
        supplemental: more as u32,
    }
}

// The report on deleting `ids`; the landmarks checked and those lost are written to the front of two lists. Seven parameters: an index lends its graph, its
// entry, its pool and the settings apart, so a struct of them would be made for this call alone. `Assessable` is the whole demand of a report.
pub fn assess_delete_admission(
    graph: &Graph<'_>,
    entry: u32,
    settings: Config<usize>,
    pool: &[u32],
    ids: &[u32],
    lists: &mut Lists<'_>,
    scratch: &mut [u32],
) -> Report
    requires { Assessable (graph_of graph.now) settings.count settings.sample settings.beam pool.now (length pool.now) ids.now lists.old.checked.now lists.old.lost.now scratch.old }
    ensures { Assessed (graph_of graph.now) entry settings.count settings.sample settings.beam pool.now ids.now lists.old.checked.now lists.new.checked.now lists.old.lost.now lists.new.lost.now result × SameLists lists.old lists.new }
{
    let marks = graph.rows.marks;
    let requested = count_named(marks, ids);
    if requested == 0 {
        return Report {
            admitted: true,
            ..Report::default()
        };
    }
    let Some(start) = residual_entry(marks, ids, entry) else {
        return Report {
            requested,
            ..Report::default()
        };
    };
    let trial = Trial {
        graph: *graph,
        entry: start,
        beam: settings.beam,
    };
    let report = probe(&trial, settings, pool, ids, lists, scratch);
    Report {
        requested,
        ..report
    }
}
