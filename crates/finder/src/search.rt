// Search.
ghost use Rattle.slots.specs.Sizes.{slices};
ghost use Rattle.reading.specs.Search.{searching, search_outputs};
ghost use Rattle.words.specs.Given.{SearchesWords};

use index::Slices;
use reading::{Found, Searching};
use words::{index_from, put};

// The `k` nearest that the walk from the entry finds: their slots, distances and figure numbers, and how many they are.
#[unsafe(no_mangle)]
pub extern "C" fn finder_search(
    words: &[u32; 12],
    vectors: &[u8],
    targets: &[u32],
    edges: &[u16],
    versions: &[u16],
    marks: &[u8],
    pool: &[u32],
    numbers: &[u32],
    summary: &[u32],
    weights: &[u8],
    query: &[u8],
    k: u32,
    beam: u32,
    slots: &mut [u32],
    dists: &mut [f32],
    found_numbers: &mut [u32],
    scratch: &mut [u32],
    found: &mut u32,
) -> u32
    ensures { SearchesWords words.now (slices vectors.now targets.now edges.now versions.now marks.now pool.now numbers.now summary.now weights.now) (searching query.now k beam) (search_outputs slots.old dists.old found_numbers.old) scratch.old (search_outputs slots.new dists.new found_numbers.new) scratch.new found.old found.new result }
{
    let held = index_from(words);
    let slices = Slices {
        vectors,
        targets,
        edges,
        versions,
        marks,
        pool,
        numbers,
        summary,
        weights,
    };
    let asked = Searching { query, k, beam };
    let mut lists = Found {
        slots,
        dists,
        numbers: found_numbers,
    };
    let answer = reading::search(held, &slices, &asked, &mut lists, scratch);
    put(answer, found)
}
