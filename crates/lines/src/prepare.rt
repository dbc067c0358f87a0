// Lines that prepare calls: what is lent and given, and what is altered by hand.
ghost use denote.Ref.{Bor};
ghost use Rattle.std.specs.Prelude.{slice_set, ◌<◌, List, Option, None, ℕ, ◌≡◌, ◌+◌, ◌-◌, ◌%◌, ◌≤◌, length, IfOk, Ok};
ghost use Rattle.text.specs.Inner.Text.{Reads, Asks, Ended};
ghost use Rattle.lines.specs.Inner.Given.{Given};
ghost use Rattle.lines.specs.Inner.Lent.{lent_of};
ghost use Rattle.lines.specs.Inner.Prepared.{Lends, Prepared, Sets, Stored, Stores, altered, alpha_of};

use super::words::Preparing;
use index::{Guard, Index, Slices};
use text::{Differs, Numbers, small};

// How much of each array is lent to a call, and how much is given.
#[derive(Clone, Copy, Default)]
pub struct Lent {
    pub vectors: usize,
    pub targets: usize,
    pub edges: usize,
    pub versions: usize,
    pub marks: usize,
    pub pool: usize,
    pub numbers: usize,
    pub summary: usize,
    pub weights: usize,
    pub slots: usize,
    pub dists: usize,
    pub found: usize,
    pub words: usize,
    pub given: usize,
    pub rows: usize,
    pub figures: usize,
    pub given_weights: usize,
}

// An index, and what is lent to its calls.
#[derive(Clone, Copy)]
pub struct State {
    pub index: Index,
    pub lent: Lent,
}

// The arrays for calls, but for the scratch, which goes beside them. What is given stands at the start of the first four, weights in `given_weights`; of the
// nine of an index calls are lent the start, as far as a line `lend` says.
#[derive(Drop)]
pub struct Arrays<'a> {
    pub given: &'a mut [u8],
    pub rows: &'a mut [u32],
    pub figures: &'a mut [u32],
    pub given_weights: &'a mut [u8],
    pub vectors: &'a mut [u8],
    pub targets: &'a mut [u32],
    pub edges: &'a mut [u16],
    pub versions: &'a mut [u16],
    pub marks: &'a mut [u8],
    pub pool: &'a mut [u32],
    pub numbers: &'a mut [u32],
    pub summary: &'a mut [u32],
    pub weights: &'a mut [u8],
}

impl Arrays<'_> {
    ghost use Rattle.std.specs.Prelude.{◌≡◌};
    ghost use Rattle.lines.specs.Inner.Lent.{lent_of};

    // What is lent of an index that is read.
    pub fn slices(&self, lent: Lent) -> Slices<'_, '_>
        ensures graph { (result.vectors.now ≡ lent_of lent.vectors self.now.vectors.now) × (result.targets.now ≡ lent_of lent.targets self.now.targets.now) × (result.edges.now ≡ lent_of lent.edges self.now.edges.now) × (result.versions.now ≡ lent_of lent.versions self.now.versions.now) × (result.marks.now ≡ lent_of lent.marks self.now.marks.now) }
        ensures beside { (result.pool.now ≡ lent_of lent.pool self.now.pool.now) × (result.numbers.now ≡ lent_of lent.numbers self.now.numbers.now) × (result.summary.now ≡ lent_of lent.summary self.now.summary.now) × (result.weights.now ≡ lent_of lent.weights self.now.weights.now) }
    {
        Slices {
            vectors: part(self.vectors, lent.vectors),
            targets: part(self.targets, lent.targets),
            edges: part(self.edges, lent.edges),
            versions: part(self.versions, lent.versions),
            marks: part(self.marks, lent.marks),
            pool: part(self.pool, lent.pool),
            numbers: part(self.numbers, lent.numbers),
            summary: part(self.summary, lent.summary),
            weights: part(self.weights, lent.weights),
        }
    }
}

// What is lent of an array.
pub fn part<T>(of: &[T], lent: usize) -> &[T]
    ensures { (result.now ≡ lent_of lent of.now) × (length result.now ≤ length of.now) }
{
    &of[..lent.min(of.len())]
}

// The same of one that is written, or goes into a struct with ones that are.
pub fn part_mut<T>(of: &mut [T], lent: usize) -> &mut [T]
    ensures { (result.now ≡ lent_of lent of.old) × (length result.now ≤ length of.old) }
{
    let n = lent.min(of.len());
    &mut of[..n]
}

// The next length of a line `lend`, for an array of `most`. One that asks for more is kept, and stands for those behind it too, as 0 does where there is none.
fn next_length(line: &mut Numbers<'_>, too_much: &mut Option<u32>, most: u32) -> usize
    ensures { too_much.new ≡ None → (too_much.old ≡ None) × Asks line.old.rest line.new.rest result }
{
    if let Some(n) = *too_much {
        return n as usize;
    }
    let n = line.argument();
    if most < n {
        *too_much = Some(n);
    }
    n as usize
}

// Performs a line `lend`.
fn lend(line: &mut Numbers<'_>, lent: &mut Lent) -> Result<(), Differs>
    ensures { IfOk result (λ _. Lends line.old.rest line.new.rest lent.old lent.new) }
{
    let mut too_much = None;
    *lent = Lent {
        vectors: next_length(line, &mut too_much, 262144),
        targets: next_length(line, &mut too_much, 131072),
        edges: next_length(line, &mut too_much, 131072),
        versions: next_length(line, &mut too_much, 65536),
        marks: next_length(line, &mut too_much, 65536),
        pool: next_length(line, &mut too_much, 1024),
        numbers: next_length(line, &mut too_much, 65536),
        summary: next_length(line, &mut too_much, 65536),
        weights: next_length(line, &mut too_much, 256),
        slots: next_length(line, &mut too_much, 1024),
        dists: next_length(line, &mut too_much, 1024),
        found: next_length(line, &mut too_much, 1024),
        words: next_length(line, &mut too_much, 235520),
        ..*lent
    };
    if too_much.is_some() {
        return Err(Differs::TooMuch);
    }
    line.end()
}

// Reads n numbers, each `more` than it is, into the start of `to`. `n` stands beside `to`: a line may give more than there is room for, and is turned back then.
pub fn words<T: TryFrom<u32> + Copy>(
    line: &mut Numbers<'_>,
    n: usize,
    more: u32,
    to: &mut [T],
) -> Result<(), Differs>
where
    <T as TryFrom<u32>>::Error: Drop,
    ensures { IfOk result (λ _. Given (λ number word. T.try_from_gives ((number + 4294967296 - more) % 4294967296) (Ok word)) line.old.rest line.new.rest n to.old to.new) }
{
    for i in 0..n {
        let word = small(line.number()?.wrapping_sub(more))?;
        // Not by `get_mut`: of a slice's the check knows the length and no element.
        if to.len() <= i {
            return Err(Differs::TooMuch);
        }
        to[i] = word;
    }
    Ok(())
}

// Performs a line `give`, `rows`, `numbers` or `weights`, whose numbers are `more` than they are.
fn give<T: TryFrom<u32> + Copy>(
    line: &mut Numbers<'_>,
    count: &mut usize,
    more: u32,
    given: &mut [T],
) -> Result<(), Differs>
where
    <T as TryFrom<u32>>::Error: Drop,
    ensures { IfOk result (λ _. (left : Option (Bor (List ℕ))) × Reads line.old.rest left count.new × Given (λ number word. T.try_from_gives ((number + 4294967296 - more) % 4294967296) (Ok word)) left line.new.rest count.new given.old given.new × Ended line.new.rest) }
{
    let n = line.argument() as usize;
    *count = n;
    words(line, n, more, given)?;
    line.end()
}

// Alpha from its multiple of 2^24. It is any u32: `as f32` takes only what an f32 holds exactly.
pub fn alpha_of(n: u32) -> f32
    ensures { result ≡ alpha_of n }
{
    if n == u32::MAX {
        return f32::NAN;
    }
    std::num::nearest_u32_to_f32(n) / 16777216.0
}

// Alters one setting of a guard, or the length of its pool. Its field is a number, as the list writes it: it is read once and names one field, so an enum would
// be a second list of the same names. So it is in `set`, and with the arrays in `store_to`.
fn alter(guard: &mut Guard, field: u32, value: u32)
    ensures { guard.new ≡ altered field value guard.old }
{
    match field {
        7 => guard.config.count = value,
        8 => guard.config.multiplier = value,
        9 => guard.config.sample = value,
        10 => guard.config.beam = value,
        _ => guard.pool = value,
    }
}

// Performs a line `set`. What alters the guard changes nothing where it is off; a field over 11 alters what 11 does, and the line differs.
fn set(line: &mut Numbers<'_>, index: &mut Index) -> Result<(), Differs>
    ensures { IfOk result (λ _. Sets line.old.rest line.new.rest index.old index.new) }
{
    let field = line.argument();
    let value = line.argument();
    match field {
        0 => index.dim = value,
        1 => index.capacity = value,
        2 => index.degree = value,
        3 => index.alpha = alpha_of(value),
        4 => index.entry = value,
        5 => index.live = value,
        6 => index.guard = None,
        _ => {
            if let Some(guard) = &mut index.guard {
                alter(guard, field, value);
            }
        }
    }
    if 11 < field {
        return Err(Differs::Malformed);
    }
    line.end()
}

// Writes a value to a place of an array, if it is lent.
fn put<T: Copy>(to: &mut [T], lent: usize, place: usize, value: T) -> Result<(), Differs>
    ensures { IfOk result (λ _. (place < lent) × (to.new ≡ slice_set to.old place value)) }
{
    // Not by `get_mut`, for the reason in `words`.
    if lent.min(to.len()) <= place {
        return Err(Differs::TooMuch);
    }
    to[place] = value;
    Ok(())
}

// Writes a value to a place of the array of this number, if it is lent.
fn store_to(
    array: u32,
    lent: Lent,
    arrays: &mut Arrays<'_>,
    place: usize,
    value: u32,
) -> Result<(), Differs>
    ensures { IfOk result (λ _. Stored array place value arrays.old arrays.new) }
{
    match array {
        0 => put(arrays.marks, lent.marks, place, small(value)?),
        1 => put(arrays.versions, lent.versions, place, small(value)?),
        2 => put(arrays.targets, lent.targets, place, value),
        3 => put(arrays.edges, lent.edges, place, small(value)?),
        4 => put(arrays.vectors, lent.vectors, place, small(value)?),
        5 => put(arrays.numbers, lent.numbers, place, value),
        6 => put(arrays.summary, lent.summary, place, value),
        7 => put(arrays.weights, lent.weights, place, small(value)?),
        _ => Err(Differs::Malformed),
    }
}

// Performs a line `store`.
fn store(line: &mut Numbers<'_>, lent: Lent, arrays: &mut Arrays<'_>) -> Result<(), Differs>
    ensures { IfOk result (λ _. Stores line.old.rest line.new.rest arrays.old arrays.new) }
{
    let array = line.number()?;
    let place = line.number()? as usize;
    let value = line.number()?;
    line.end()?;
    store_to(array, lent, arrays, place, value)
}

// Performs a line that prepares a call.
pub fn perform(
    what: Preparing,
    line: &mut Numbers<'_>,
    state: &mut State,
    arrays: &mut Arrays<'_>,
) -> Result<(), Differs>
    ensures { IfOk result (λ _. Prepared what line.old.rest line.new.rest state.old state.new arrays.old arrays.new) }
{
    match what {
        Preparing::Lend => lend(line, &mut state.lent),
        Preparing::Give => give(line, &mut state.lent.given, 0, arrays.given),
        Preparing::Rows => give(line, &mut state.lent.rows, 1, arrays.rows),
        Preparing::Numbers => give(line, &mut state.lent.figures, 0, arrays.figures),
        Preparing::Weights => give(line, &mut state.lent.given_weights, 0, arrays.given_weights),
        Preparing::Set => set(line, &mut state.index),
        Preparing::Store => store(line, state.lent, arrays),
    }
}
