// Delete. The two are twins: for C each kind of name has a function of its own.
ghost use Rattle.std.specs.Prelude.{map};
ghost use Rattle.slots.specs.Sizes.{slices};
ghost use Rattle.deletion.specs.Batch.{stats_in};
ghost use Rattle.updating.specs.declared.names.Naming.TheVariants.{Slots, Numbers};
ghost use Rattle.updating.specs.Delete.{deleting, stats_outputs};
ghost use Rattle.words.specs.Given.{DeletesWords};

use deletion::{DeleteStats, write_stats};
use index::DeleteSlices;
use updating::{Deleting, Naming};
use words::delete_words;

// Deletes the live ones of `ids` and repairs the rows around them; writes the stats of each to the front of `stats`, the index's words and how many they are.
#[tactic(auto, using(words::proofs::Emptied::deletes_words))]
#[unsafe(no_mangle)]
pub extern "C" fn finder_delete(
    words: &mut [u32; 12],
    vectors: &[u8],
    targets: &mut [u32],
    edges: &mut [u16],
    versions: &mut [u16],
    marks: &mut [u8],
    pool: &[u32],
    numbers: &mut [u32],
    summary: &mut [u32],
    weights: &[u8],
    ids: &[u32],
    repair_beam: u32,
    repair_degree: u32,
    stats: &mut [DeleteStats],
    scratch: &mut [u32],
    found: &mut u32,
) -> u32
    ensures { DeletesWords words.old (slices vectors.now targets.old edges.old versions.old marks.old pool.now numbers.old summary.old weights.now) (deleting ids.now Slots repair_beam repair_degree) (stats_outputs (map stats_in stats.old)) scratch.old words.new (slices vectors.now targets.new edges.new versions.new marks.new pool.now numbers.new summary.new weights.now) (stats_outputs (map stats_in stats.new)) scratch.new found.old found.new result }
{
    let mut slices = DeleteSlices {
        vectors,
        targets,
        edges,
        versions,
        marks,
        pool,
        numbers,
        summary,
        weights,
    };
    let asked = Deleting {
        names: ids,
        naming: Naming::Slots,
        repair_beam,
        repair_degree,
    };
    let room = stats.len();
    let left = delete_words(words, &mut slices, &asked, room, scratch, found);
    write_stats(stats, scratch, left.at, left.count);
    left.status
}

// The same, of the slots that carry the numbers `names`.
#[tactic(auto, using(words::proofs::Emptied::deletes_words))]
#[unsafe(no_mangle)]
pub extern "C" fn finder_delete_numbers(
    words: &mut [u32; 12],
    vectors: &[u8],
    targets: &mut [u32],
    edges: &mut [u16],
    versions: &mut [u16],
    marks: &mut [u8],
    pool: &[u32],
    numbers: &mut [u32],
    summary: &mut [u32],
    weights: &[u8],
    names: &[u32],
    repair_beam: u32,
    repair_degree: u32,
    stats: &mut [DeleteStats],
    scratch: &mut [u32],
    found: &mut u32,
) -> u32
    ensures { DeletesWords words.old (slices vectors.now targets.old edges.old versions.old marks.old pool.now numbers.old summary.old weights.now) (deleting names.now Numbers repair_beam repair_degree) (stats_outputs (map stats_in stats.old)) scratch.old words.new (slices vectors.now targets.new edges.new versions.new marks.new pool.now numbers.new summary.new weights.now) (stats_outputs (map stats_in stats.new)) scratch.new found.old found.new result }
{
    let mut slices = DeleteSlices {
        vectors,
        targets,
        edges,
        versions,
        marks,
        pool,
        numbers,
        summary,
        weights,
    };
    let asked = Deleting {
        names,
        naming: Naming::Numbers,
        repair_beam,
        repair_degree,
    };
    let room = stats.len();
    let left = delete_words(words, &mut slices, &asked, room, scratch, found);
    write_stats(stats, scratch, left.at, left.count);
    left.status
}
