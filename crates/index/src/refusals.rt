// The tests of document 01's table that calls share, and the size answer. A test says what is bad, as its row does: one that gave the row's error as a `Result`
// would be no shorter, and `check_sizes` and `check_index` would show less well in which order their rows are tested.
ghost use Rattle.std.specs.Prelude.{not, ◌∷◌, [], ◌≡◌, ◌*◌, ◌≤◌, Float, ltb, length};
ghost use Rattle.slots.specs.Sizes.{limits, within, sizes_ok, alpha_ok, weights_ok, exact, lengths_ok};
ghost use Rattle.guard.specs.Lent.{config_of};
ghost use Rattle.calls.specs.Refusals.{first_of, guard_fault, config_over, config_zero};
ghost use Rattle.slots.specs.Scratch.{size_answer};
ghost use Rattle.index.specs.Index.{words_for, guard_of, sizes, lengths_in};
ghost use Rattle.index.specs.Lent.{slices_of};
ghost use Rattle.index.specs.Inner.Deciding.{index_fault, Decided};
ghost use Rattle.index.specs.Refusal.{turned_back};

use super::{Guard, Index, Lengths, Refusal, Slices};
use guard::Config;
use numbers::labels_bad;
use slots::limits;
use slots::scratch::{MARKS, WORK_WORDS};

// Whether a number is outside a range that begins at 1: that a range's `contains` fails, the same for three sizes.
fn outside(high: u32, n: u32) -> bool
    ensures { result ≡ not (within 1 high n) }
{
    !(1..=high).contains(&n)
}

// Row 1: dim, capacity or degree is outside its range. The three come one by one: an index, a making and the size answer have them as fields or words of
// their own, and a struct of them would be made for each test anew.
#[tactic(auto, unfolding(slots::specs::Sizes::sizes_ok, slots::specs::Sizes::limits))]
fn sizes_bad(dim: u32, capacity: u32, degree: u32) -> bool
    ensures { (alpha : Float) → result ≡ not (sizes_ok limits (sizes dim capacity degree alpha)) }
{
    outside(limits::DIM, dim)
        || outside(limits::CAPACITY, capacity)
        || outside(limits::DEGREE, degree)
}

// Row 2: alpha is outside 1.0 to 2.0, or no number. By `<=`, as its definition: a range's `contains` asks `partial_cmp`, and is no plainer.
#[tactic(auto, using(candidates::proofs::Floats::one_bits, candidates::proofs::Floats::two_bits), unfolding(slots::specs::Sizes::alpha_ok))]
fn alpha_bad(alpha: f32) -> bool
    ensures { result ≡ not (alpha_ok alpha) }
{
    !(1.0 <= alpha && alpha <= 2.0)
}

// The product of two sizes; it fits whatever they are.
pub fn product(a: u32, b: u32) -> usize
    ensures { result ≡ a * b }
{
    a as usize * b as usize
}

// The lengths that the nine slices of an index of these sizes have.
#[tactic(auto, unfolding(slots::specs::Sizes::limits))]
fn exact_lengths(dim: u32, capacity: u32, degree: u32) -> Lengths
    ensures { (alpha : Float) → lengths_in result ≡ exact limits (sizes dim capacity degree alpha) }
{
    let rows = product(capacity, degree);
    let count = capacity as usize;
    Lengths {
        vectors: product(capacity, dim),
        targets: rows,
        edges: rows,
        versions: count,
        marks: count,
        pool: limits::POOL as usize,
        numbers: count,
        summary: count,
        weights: dim as usize,
    }
}

// Row 3, of the nine slices of an index: one of them has another length. Sizes one by one, as for row 1.
fn lengths_bad(dim: u32, capacity: u32, degree: u32, lent: Lengths) -> bool
    ensures { (alpha : Float) → result ≡ not (lengths_ok limits (sizes dim capacity degree alpha) (lengths_in lent)) }
{
    lent != exact_lengths(dim, capacity, degree)
}

// Row 16: a weight is outside 1 to 4, or their sum is over 256. With no exit, so that the compiler takes many weights at a time.
pub fn weights_bad(weights: &[u8]) -> bool
    requires { length weights.now ≤ 256 }
    ensures { result ≡ not (weights_ok limits weights.now) }
{
    let mut bad = false;
    let mut sum: u16 = 0;
    for weight in weights {
        bad |= !(1..=limits::WEIGHT).contains(weight);
        sum += u16::from(*weight);
    }
    bad || limits::WEIGHT_SUM < u32::from(sum)
}

// Row 7, of a guard's settings: one of them is over its limit.
#[tactic(auto, unfolding(slots::specs::Sizes::limits))]
pub fn config_over(config: Config) -> bool
    ensures { result ≡ config_over limits (config_of config) }
{
    limits::LANDMARKS < config.count
        || limits::MULTIPLIER < config.multiplier
        || limits::SAMPLE < config.sample
        || limits::BEAM < config.beam
}

// Whether one of a guard's settings is 0.
fn config_zero(config: Config) -> bool
    ensures { result ≡ config_zero (config_of config) }
{
    config.count == 0 || config.multiplier == 0 || config.sample == 0 || config.beam == 0
}

// Whether a guard has a fault: a setting that is 0 or over its limit, or too long a pool.
#[tactic(auto, unfolding(calls::specs::Refusals::guard_fault, crate::specs::Index::guard_of, slots::specs::Sizes::limits))]
fn guard_bad(guard: Option<Guard>) -> bool
    ensures { result ≡ guard_fault limits (guard_of guard) }
{
    let Some(g) = guard else {
        return false;
    };
    config_zero(g.config) || config_over(g.config) || limits::POOL < g.pool
}

// Row 6: the live count is not that of the marks, the entry is outside, the guard has a fault, or numbers and summary break a rule.
fn index_bad(index: Index, slices: &Slices<'_, '_>) -> bool
    requires { (length slices.now.numbers.now ≡ length slices.now.marks.now) × (length slices.now.summary.now ≡ length slices.now.marks.now) }
    ensures { result ≡ index_fault index (slices_of slices.now) (length slices.now.marks.now) }
{
    let live = index.live as usize;
    if live != slots::marks::count_valid(slices.marks) {
        return true;
    }
    index.capacity <= index.entry
        || guard_bad(index.guard)
        || labels_bad(slices.marks, slices.numbers, slices.summary, live)
}

// Turns a call or a making back by the first of rows 1, 2 and 3 that holds of its sizes, its alpha and the lengths of its nine slices.
pub fn check_sizes(
    dim: u32,
    capacity: u32,
    degree: u32,
    alpha: f32,
    lent: Lengths,
) -> Result<(), Refusal>
    ensures { turned_back result ≡ first_of ((1, not (sizes_ok limits (sizes dim capacity degree alpha))) ∷ (2, not (alpha_ok alpha)) ∷ (3, not (lengths_ok limits (sizes dim capacity degree alpha) (lengths_in lent))) ∷ []) }
{
    if sizes_bad(dim, capacity, degree) {
        return Err(Refusal::Sizes);
    }
    if alpha_bad(alpha) {
        return Err(Refusal::Alpha);
    }
    if lengths_bad(dim, capacity, degree, lent) {
        return Err(Refusal::Lengths);
    }
    Ok(())
}

// Turns a call back by the first of rows 1, 2, 3, 16 and 6 that holds. `wrong` is whether the call's own part of row 3 holds: it stands between the index's
// rows, so what the call found comes in as a value. It chooses no step.
pub fn check_index(index: Index, slices: &Slices<'_, '_>, wrong: bool) -> Result<(), Refusal>
    ensures { Decided index (slices_of slices.now) wrong [] result }
{
    check_sizes(
        index.dim,
        index.capacity,
        index.degree,
        index.alpha,
        slices.lengths(),
    )?;
    if wrong {
        return Err(Refusal::Lengths);
    }
    if weights_bad(slices.weights) {
        return Err(Refusal::Weights);
    }
    if index_bad(index, slices) {
        return Err(Refusal::Index);
    }
    Ok(())
}

// The size answer; the sum fits whatever the capacity is.
#[tactic(auto, unfolding(slots::specs::Scratch::size_answer))]
fn size_answer(capacity: u32) -> usize
    ensures { result ≡ size_answer capacity }
{
    MARKS + capacity as usize + WORK_WORDS
}

// Row 8: the scratch is shorter than the size answer.
pub fn scratch_short(capacity: u32, scratch: usize) -> bool
    ensures { result ≡ ltb scratch (size_answer capacity) }
{
    scratch < size_answer(capacity)
}

// How many words of scratch the calls on an index of these sizes ask for.
pub fn scratch_words(dim: u32, capacity: u32, degree: u32) -> Result<u32, Refusal>
    ensures { (alpha : Float) → result ≡ words_for (sizes dim capacity degree alpha) }
{
    if sizes_bad(dim, capacity, degree) {
        return Err(Refusal::Sizes);
    }
    Ok(size_answer(capacity) as u32)
}
