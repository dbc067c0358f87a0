// The guarded delete. The two are twins: for C each kind of name has a function of its own.
ghost use Rattle.std.specs.Prelude.{map};
ghost use Rattle.slots.specs.Sizes.{slices};
ghost use Rattle.deletion.specs.Batch.{stats_in};
ghost use Rattle.updating.specs.declared.names.Naming.TheVariants.{Slots, Numbers};
ghost use Rattle.updating.specs.Delete.{deleting};
ghost use Rattle.guarding.specs.Guarded.{guarded_outputs};
ghost use Rattle.words.specs.Given.{GuardsWords};

use admission::Lists;
use deletion::{DeleteStats, write_stats};
use index::DeleteSlices;
use updating::{Deleting, Naming};
use words::{Written, guarded_words};

// Deletes the live ones of `ids` if the guard admits it, which the report says; writes the report's numbers, the landmarks checked and lost, and how many
// slots are emptied; where it is applied, also the stats of each to the front of `stats` and the index's words.
#[tactic(auto, using(words::proofs::Applied::guards_words))]
#[unsafe(no_mangle)]
pub extern "C" fn finder_guarded_delete(
    words: &mut [u32; 12],
    vectors: &[u8],
    targets: &mut [u32],
    edges: &mut [u16],
    versions: &mut [u16],
    marks: &mut [u8],
    pool: &[u32],
    numbers: &mut [u32],
    summary: &mut [u32],
    weights: &[u8],
    ids: &[u32],
    repair_beam: u32,
    repair_degree: u32,
    stats: &mut [DeleteStats],
    checked: &mut [u32],
    lost: &mut [u32],
    scratch: &mut [u32],
    found: &mut u32,
    report: &mut [u32; 8],
) -> u32
    ensures { GuardsWords words.old (slices vectors.now targets.old edges.old versions.old marks.old pool.now numbers.old summary.old weights.now) (deleting ids.now Slots repair_beam repair_degree) (guarded_outputs (map stats_in stats.old) checked.old lost.old) scratch.old words.new (slices vectors.now targets.new edges.new versions.new marks.new pool.now numbers.new summary.new weights.now) (guarded_outputs (map stats_in stats.new) checked.new lost.new) scratch.new found.old found.new report.old report.new result }
{
    let mut slices = DeleteSlices {
        vectors,
        targets,
        edges,
        versions,
        marks,
        pool,
        numbers,
        summary,
        weights,
    };
    let asked = Deleting {
        names: ids,
        naming: Naming::Slots,
        repair_beam,
        repair_degree,
    };
    let room = stats.len();
    let mut lists = Lists { checked, lost };
    let mut written = Written {
        words,
        found,
        report,
    };
    let left = guarded_words(&mut written, &mut slices, &asked, room, &mut lists, scratch);
    write_stats(stats, scratch, left.at, left.count);
    left.status
}

// The same, of the slots that carry the numbers `names`.
#[tactic(auto, using(words::proofs::Applied::guards_words))]
#[unsafe(no_mangle)]
pub extern "C" fn finder_guarded_delete_numbers(
    words: &mut [u32; 12],
    vectors: &[u8],
    targets: &mut [u32],
    edges: &mut [u16],
    versions: &mut [u16],
    marks: &mut [u8],
    pool: &[u32],
    numbers: &mut [u32],
    summary: &mut [u32],
    weights: &[u8],
    names: &[u32],
    repair_beam: u32,
    repair_degree: u32,
    stats: &mut [DeleteStats],
    checked: &mut [u32],
    lost: &mut [u32],
    scratch: &mut [u32],
    found: &mut u32,
    report: &mut [u32; 8],
) -> u32
    ensures { GuardsWords words.old (slices vectors.now targets.old edges.old versions.old marks.old pool.now numbers.old summary.old weights.now) (deleting names.now Numbers repair_beam repair_degree) (guarded_outputs (map stats_in stats.old) checked.old lost.old) scratch.old words.new (slices vectors.now targets.new edges.new versions.new marks.new pool.now numbers.new summary.new weights.now) (guarded_outputs (map stats_in stats.new) checked.new lost.new) scratch.new found.old found.new report.old report.new result }
{
    let mut slices = DeleteSlices {
        vectors,
        targets,
        edges,
        versions,
        marks,
        pool,
        numbers,
        summary,
        weights,
    };
    let asked = Deleting {
        names,
        naming: Naming::Numbers,
        repair_beam,
        repair_degree,
    };
    let room = stats.len();
    let mut lists = Lists { checked, lost };
    let mut written = Written {
        words,
        found,
        report,
    };
    let left = guarded_words(&mut written, &mut slices, &asked, room, &mut lists, scratch);
    write_stats(stats, scratch, left.at, left.count);
    left.status
}
