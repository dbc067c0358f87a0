// The guard's calls on an index that words hold.
ghost use Rattle.slots.specs.Sizes.{slices};
ghost use Rattle.guard.specs.Guard.{config};
ghost use Rattle.guarding.specs.Guarding.{assessing, report_outputs};
ghost use Rattle.words.specs.Given.{StandsWords, EnablesWords, AssessesWords};

use admission::Lists;
use guard::Config;
use index::{EnableSlices, Slices};
use words::{index_from, put_enabled, put_report, put_status};

// Enables the guard, which may be on already, and writes the words of the index and the guard's status.
#[tactic(auto, using(words::proofs::Guarded::enabled_number, words::proofs::Guarded::enables_words))]
#[unsafe(no_mangle)]
pub extern "C" fn finder_guard_enable(
    words: &mut [u32; 12],
    vectors: &[u8],
    targets: &[u32],
    edges: &[u16],
    versions: &[u16],
    marks: &[u8],
    pool: &mut [u32],
    numbers: &[u32],
    summary: &[u32],
    weights: &[u8],
    landmark_count: u32,
    multiplier: u32,
    sample: u32,
    beam: u32,
    scratch: &mut [u32],
    status: &mut [u32; 5],
) -> u32
    ensures { EnablesWords words.old (slices vectors.now targets.now edges.now versions.now marks.now pool.old numbers.now summary.now weights.now) (config landmark_count multiplier sample beam) scratch.old words.new (slices vectors.now targets.now edges.now versions.now marks.now pool.new numbers.now summary.now weights.now) scratch.new status.old status.new result }
{
    let held = index_from(words);
    let mut slices = EnableSlices {
        vectors,
        targets,
        edges,
        versions,
        marks,
        pool,
        numbers,
        summary,
        weights,
    };
    let config = Config {
        count: landmark_count,
        multiplier,
        sample,
        beam,
    };
    let answer = guarding::enable_guard(held, &mut slices, config, scratch);
    put_enabled(answer, words, status)
}

// The guard's status.
#[unsafe(no_mangle)]
pub extern "C" fn finder_guard_status(
    words: &[u32; 12],
    vectors: &[u8],
    targets: &[u32],
    edges: &[u16],
    versions: &[u16],
    marks: &[u8],
    pool: &[u32],
    numbers: &[u32],
    summary: &[u32],
    weights: &[u8],
    status: &mut [u32; 5],
) -> u32
    ensures { StandsWords words.now (slices vectors.now targets.now edges.now versions.now marks.now pool.now numbers.now summary.now weights.now) status.old status.new result }
{
    let slices = Slices {
        vectors,
        targets,
        edges,
        versions,
        marks,
        pool,
        numbers,
        summary,
        weights,
    };
    let answer = guarding::guard_status(index_from(words), &slices);
    put_status(answer, status)
}

// The report on deleting `ids`: its numbers, and the landmarks checked and lost.
#[unsafe(no_mangle)]
pub extern "C" fn finder_assess(
    words: &[u32; 12],
    vectors: &[u8],
    targets: &[u32],
    edges: &[u16],
    versions: &[u16],
    marks: &[u8],
    pool: &[u32],
    numbers: &[u32],
    summary: &[u32],
    weights: &[u8],
    ids: &[u32],
    checked: &mut [u32],
    lost: &mut [u32],
    scratch: &mut [u32],
    report: &mut [u32; 8],
) -> u32
    ensures { AssessesWords words.now (slices vectors.now targets.now edges.now versions.now marks.now pool.now numbers.now summary.now weights.now) (assessing ids.now) (report_outputs checked.old lost.old) scratch.old (report_outputs checked.new lost.new) scratch.new report.old report.new result }
{
    let held = index_from(words);
    let slices = Slices {
        vectors,
        targets,
        edges,
        versions,
        marks,
        pool,
        numbers,
        summary,
        weights,
    };
    let mut lists = Lists { checked, lost };
    let answer = guarding::assess_delete(held, &slices, ids, &mut lists, scratch);
    put_report(answer, report)
}
