// Insert.
ghost use Rattle.slots.specs.Sizes.{slices};
ghost use Rattle.updating.specs.Insert.{inserting, insert_outputs};
ghost use Rattle.words.specs.Given.{InsertsWords};

use index::InsertSlices;
use updating::Inserting;
use words::{index_from, put_changed};

// Inserts the vectors of `bytes` with the numbers `given` into the lowest free slots, which go to the front of `slots`; writes the index's words and how many they
// are.
#[unsafe(no_mangle)]
pub extern "C" fn finder_insert(
    words: &mut [u32; 12],
    vectors: &mut [u8],
    targets: &mut [u32],
    edges: &mut [u16],
    versions: &[u16],
    marks: &mut [u8],
    pool: &[u32],
    numbers: &mut [u32],
    summary: &mut [u32],
    weights: &[u8],
    bytes: &[u8],
    given: &[u32],
    beam: u32,
    slots: &mut [u32],
    scratch: &mut [u32],
    found: &mut u32,
) -> u32
    ensures { InsertsWords words.old (slices vectors.old targets.old edges.old versions.now marks.old pool.now numbers.old summary.old weights.now) (inserting bytes.now given.now beam) (insert_outputs slots.old) scratch.old words.new (slices vectors.new targets.new edges.new versions.now marks.new pool.now numbers.new summary.new weights.now) (insert_outputs slots.new) scratch.new found.old found.new result }
{
    let held = index_from(words);
    let mut slices = InsertSlices {
        vectors,
        targets,
        edges,
        versions,
        marks,
        pool,
        numbers,
        summary,
        weights,
    };
    let asked = Inserting {
        bytes,
        numbers: given,
        beam,
    };
    let answer = updating::insert(held, &mut slices, &asked, slots, scratch);
    put_changed(answer, words, found)
}
