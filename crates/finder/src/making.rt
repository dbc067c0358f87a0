// The library's version, the size answer, and making an index.
ghost use Rattle.std.specs.Prelude.{◌≡◌};
ghost use Rattle.slots.specs.Sizes.{slices};
ghost use Rattle.index.specs.Create.{making};
ghost use Rattle.words.specs.Given.{SizesScratch, CreatesWords};

use index::{Making, NewSlices};
use words::{put, put_created};

// 10,000 for each major version, 100 for each minor one and 1 for each patch.
const VERSION: u32 = 3_01_00;

// The library's version.
#[unsafe(no_mangle)]
pub extern "C" fn finder_version() -> u32
    ensures { result ≡ 30100 }
{
    VERSION
}

// Writes how many words of scratch the calls on an index of these sizes ask for.
#[unsafe(no_mangle)]
pub extern "C" fn finder_scratch_words(dim: u32, capacity: u32, degree: u32, size: &mut u32) -> u32
    ensures { SizesScratch dim capacity degree size.old size.new result }
{
    put(index::scratch_words(dim, capacity, degree), size)
}

// Makes an index of the given vectors, rows, numbers and weights in the nine lent slices, and writes its words.
#[tactic(auto, using(words::proofs::Told::made_number, words::proofs::Told::creates_words))]
#[unsafe(no_mangle)]
pub extern "C" fn finder_create(
    dim: u32,
    capacity: u32,
    degree: u32,
    alpha: f32,
    entry: u32,
    count: u32,
    bytes: &[u8],
    rows: &[u32],
    given: &[u32],
    given_weights: &[u8],
    vectors: &mut [u8],
    targets: &mut [u32],
    edges: &mut [u16],
    versions: &mut [u16],
    marks: &mut [u8],
    pool: &mut [u32],
    numbers: &mut [u32],
    summary: &mut [u32],
    weights: &mut [u8],
    words: &mut [u32; 12],
) -> u32
    ensures { CreatesWords (making dim capacity degree alpha entry count bytes.now rows.now given.now given_weights.now) (slices vectors.old targets.old edges.old versions.old marks.old pool.old numbers.old summary.old weights.old) (slices vectors.new targets.new edges.new versions.new marks.new pool.new numbers.new summary.new weights.new) words.old words.new result }
{
    let asked = Making {
        dim,
        capacity,
        degree,
        alpha,
        entry,
        count,
        bytes,
        rows,
        numbers: given,
        weights: given_weights,
    };
    let mut slices = NewSlices {
        vectors,
        targets,
        edges,
        versions,
        marks,
        pool,
        numbers,
        summary,
        weights,
    };
    put_created(index::create(&asked, &mut slices), words)
}
