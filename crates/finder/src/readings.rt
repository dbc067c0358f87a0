// Readings of an index that words hold. They are twins: for C each reading has a function of its own.
ghost use Rattle.slots.specs.Sizes.{slices};
ghost use Rattle.reading.specs.declared.Reading.TheVariants.{Dim, Capacity, Degree, Alpha, Entry, Live, Mark, Version, Number, Target};
ghost use Rattle.words.specs.Given.{ReadsNumber, ReadsAlpha, ReadsLength};

use index::Slices;
use reading::Reading;
use words::{index_from, put_alpha, read_number, read_value};

// The dim.
#[unsafe(no_mangle)]
pub extern "C" fn finder_dim(
    words: &[u32; 12],
    vectors: &[u8],
    targets: &[u32],
    edges: &[u16],
    versions: &[u16],
    marks: &[u8],
    pool: &[u32],
    numbers: &[u32],
    summary: &[u32],
    weights: &[u8],
    value: &mut u32,
) -> u32
    ensures { ReadsNumber words.now (slices vectors.now targets.now edges.now versions.now marks.now pool.now numbers.now summary.now weights.now) Dim value.old value.new result }
{
    let slices = Slices {
        vectors,
        targets,
        edges,
        versions,
        marks,
        pool,
        numbers,
        summary,
        weights,
    };
    read_number(words, &slices, Reading::Dim, value)
}

// The capacity.
#[unsafe(no_mangle)]
pub extern "C" fn finder_capacity(
    words: &[u32; 12],
    vectors: &[u8],
    targets: &[u32],
    edges: &[u16],
    versions: &[u16],
    marks: &[u8],
    pool: &[u32],
    numbers: &[u32],
    summary: &[u32],
    weights: &[u8],
    value: &mut u32,
) -> u32
    ensures { ReadsNumber words.now (slices vectors.now targets.now edges.now versions.now marks.now pool.now numbers.now summary.now weights.now) Capacity value.old value.new result }
{
    let slices = Slices {
        vectors,
        targets,
        edges,
        versions,
        marks,
        pool,
        numbers,
        summary,
        weights,
    };
    read_number(words, &slices, Reading::Capacity, value)
}

// The degree.
#[unsafe(no_mangle)]
pub extern "C" fn finder_degree(
    words: &[u32; 12],
    vectors: &[u8],
    targets: &[u32],
    edges: &[u16],
    versions: &[u16],
    marks: &[u8],
    pool: &[u32],
    numbers: &[u32],
    summary: &[u32],
    weights: &[u8],
    value: &mut u32,
) -> u32
    ensures { ReadsNumber words.now (slices vectors.now targets.now edges.now versions.now marks.now pool.now numbers.now summary.now weights.now) Degree value.old value.new result }
{
    let slices = Slices {
        vectors,
        targets,
        edges,
        versions,
        marks,
        pool,
        numbers,
        summary,
        weights,
    };
    read_number(words, &slices, Reading::Degree, value)
}

// The entry.
#[unsafe(no_mangle)]
pub extern "C" fn finder_entry(
    words: &[u32; 12],
    vectors: &[u8],
    targets: &[u32],
    edges: &[u16],
    versions: &[u16],
    marks: &[u8],
    pool: &[u32],
    numbers: &[u32],
    summary: &[u32],
    weights: &[u8],
    value: &mut u32,
) -> u32
    ensures { ReadsNumber words.now (slices vectors.now targets.now edges.now versions.now marks.now pool.now numbers.now summary.now weights.now) Entry value.old value.new result }
{
    let slices = Slices {
        vectors,
        targets,
        edges,
        versions,
        marks,
        pool,
        numbers,
        summary,
        weights,
    };
    read_number(words, &slices, Reading::Entry, value)
}

// The live count.
#[unsafe(no_mangle)]
pub extern "C" fn finder_live(
    words: &[u32; 12],
    vectors: &[u8],
    targets: &[u32],
    edges: &[u16],
    versions: &[u16],
    marks: &[u8],
    pool: &[u32],
    numbers: &[u32],
    summary: &[u32],
    weights: &[u8],
    value: &mut u32,
) -> u32
    ensures { ReadsNumber words.now (slices vectors.now targets.now edges.now versions.now marks.now pool.now numbers.now summary.now weights.now) Live value.old value.new result }
{
    let slices = Slices {
        vectors,
        targets,
        edges,
        versions,
        marks,
        pool,
        numbers,
        summary,
        weights,
    };
    read_number(words, &slices, Reading::Live, value)
}

// The mark of a slot: 1 if it is live, else 0.
#[unsafe(no_mangle)]
pub extern "C" fn finder_mark(
    words: &[u32; 12],
    vectors: &[u8],
    targets: &[u32],
    edges: &[u16],
    versions: &[u16],
    marks: &[u8],
    pool: &[u32],
    numbers: &[u32],
    summary: &[u32],
    weights: &[u8],
    slot: u32,
    value: &mut u32,
) -> u32
    ensures { ReadsNumber words.now (slices vectors.now targets.now edges.now versions.now marks.now pool.now numbers.now summary.now weights.now) (Mark slot) value.old value.new result }
{
    let slices = Slices {
        vectors,
        targets,
        edges,
        versions,
        marks,
        pool,
        numbers,
        summary,
        weights,
    };
    read_number(words, &slices, Reading::Mark(slot), value)
}

// The version of a slot.
#[unsafe(no_mangle)]
pub extern "C" fn finder_slot_version(
    words: &[u32; 12],
    vectors: &[u8],
    targets: &[u32],
    edges: &[u16],
    versions: &[u16],
    marks: &[u8],
    pool: &[u32],
    numbers: &[u32],
    summary: &[u32],
    weights: &[u8],
    slot: u32,
    value: &mut u32,
) -> u32
    ensures { ReadsNumber words.now (slices vectors.now targets.now edges.now versions.now marks.now pool.now numbers.now summary.now weights.now) (Version slot) value.old value.new result }
{
    let slices = Slices {
        vectors,
        targets,
        edges,
        versions,
        marks,
        pool,
        numbers,
        summary,
        weights,
    };
    read_number(words, &slices, Reading::Version(slot), value)
}

// The figure number of a slot.
#[unsafe(no_mangle)]
pub extern "C" fn finder_number(
    words: &[u32; 12],
    vectors: &[u8],
    targets: &[u32],
    edges: &[u16],
    versions: &[u16],
    marks: &[u8],
    pool: &[u32],
    numbers: &[u32],
    summary: &[u32],
    weights: &[u8],
    slot: u32,
    value: &mut u32,
) -> u32
    ensures { ReadsNumber words.now (slices vectors.now targets.now edges.now versions.now marks.now pool.now numbers.now summary.now weights.now) (Number slot) value.old value.new result }
{
    let slices = Slices {
        vectors,
        targets,
        edges,
        versions,
        marks,
        pool,
        numbers,
        summary,
        weights,
    };
    read_number(words, &slices, Reading::Number(slot), value)
}

// The target with `place` live ones before it in a slot's row; blank past the last.
#[unsafe(no_mangle)]
pub extern "C" fn finder_target(
    words: &[u32; 12],
    vectors: &[u8],
    targets: &[u32],
    edges: &[u16],
    versions: &[u16],
    marks: &[u8],
    pool: &[u32],
    numbers: &[u32],
    summary: &[u32],
    weights: &[u8],
    slot: u32,
    place: u32,
    value: &mut u32,
) -> u32
    ensures { ReadsNumber words.now (slices vectors.now targets.now edges.now versions.now marks.now pool.now numbers.now summary.now weights.now) (Target slot place) value.old value.new result }
{
    let slices = Slices {
        vectors,
        targets,
        edges,
        versions,
        marks,
        pool,
        numbers,
        summary,
        weights,
    };
    read_number(words, &slices, Reading::Target(slot, place), value)
}

// Alpha.
#[tactic(auto, using(words::proofs::Told::reads_alpha))]
#[unsafe(no_mangle)]
pub extern "C" fn finder_alpha(
    words: &[u32; 12],
    vectors: &[u8],
    targets: &[u32],
    edges: &[u16],
    versions: &[u16],
    marks: &[u8],
    pool: &[u32],
    numbers: &[u32],
    summary: &[u32],
    weights: &[u8],
    value: &mut f32,
) -> u32
    ensures { ReadsAlpha words.now (slices vectors.now targets.now edges.now versions.now marks.now pool.now numbers.now summary.now weights.now) value.old value.new result }
{
    let slices = Slices {
        vectors,
        targets,
        edges,
        versions,
        marks,
        pool,
        numbers,
        summary,
        weights,
    };
    let read = read_value(words, &slices, Reading::Alpha);
    put_alpha(read, value)
}

// How many bytes the vector of a slot has: dim, or 0 where it is dead or outside, and where the call is turned back.
#[unsafe(no_mangle)]
pub extern "C" fn finder_vector(
    words: &[u32; 12],
    vectors: &[u8],
    targets: &[u32],
    edges: &[u16],
    versions: &[u16],
    marks: &[u8],
    pool: &[u32],
    numbers: &[u32],
    summary: &[u32],
    weights: &[u8],
    slot: u32,
) -> usize
    ensures { ReadsLength words.now (slices vectors.now targets.now edges.now versions.now marks.now pool.now numbers.now summary.now weights.now) slot result }
{
    let slices = Slices {
        vectors,
        targets,
        edges,
        versions,
        marks,
        pool,
        numbers,
        summary,
        weights,
    };
    reading::read_vector(index_from(words), &slices, slot).len()
}
