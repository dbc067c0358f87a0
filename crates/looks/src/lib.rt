// The lines of calls that leave an index as it is, each compared with the stored answer.
#![tactic(auto)]

ghost use denote.Ref.{Bor};
ghost use Rattle.std.specs.Prelude.{List, Option, ℕ, IfOk};
ghost use Rattle.index.specs.Refusal.{number_of};
ghost use Rattle.reading.specs.declared.Value.{Value};
ghost use Rattle.text.specs.Inner.Text.{Reads};
ghost use Rattle.lines.specs.Inner.Answers.{Answered};
ghost use Rattle.looks.specs.Inner.Readings.{CandidatesRead, FoundRead, SearchRead, ValueRead, Answers, VectorRead, VectorLine, SizeRead, ReadingRead, Looks};

use index::{Index, Refusal, Slices};
use lines::answers::expect_done;
use lines::prepare::{Arrays, State, alpha_of, part, part_mut, words};
use lines::words::Looking;
use reading::{Found, Reading, Searching, Value};
use text::{Differs, Numbers};

// What a number asks for. Not a `TryFrom`: `Reading` and the numbers are of other crates, and an impl needs a type of its own crate.
fn reading(what: u32, slot: u32, place: u32) -> Result<Reading, Differs> {
    let reading = match what {
        0 => Reading::Dim,
        1 => Reading::Capacity,
        2 => Reading::Degree,
        3 => Reading::Alpha,
        4 => Reading::Entry,
        5 => Reading::Live,
        6 => Reading::Mark(slot),
        7 => Reading::Version(slot),
        8 => Reading::Target(slot, place),
        9 => Reading::Number(slot),
        _ => return Err(Differs::Malformed),
    };
    Ok(reading)
}

// Passes a refusal and the number behind it, which is any.
fn expect_refusal(line: &mut Numbers<'_>, refusal: Refusal) -> Result<(), Differs>
    ensures { IfOk result (λ _. (left : Option (Bor (List ℕ))) × (any : ℕ) × Reads line.old.rest left (number_of refusal) × Reads left line.new.rest any) }
{
    line.expect(refusal as u32)?;
    line.number()?;
    Ok(())
}

// Passes a factor, a number that is to be this alpha.
fn expect_alpha(line: &mut Numbers<'_>, alpha: f32) -> Result<(), Differs>
    ensures { IfOk result (λ _. ValueRead line.old.rest line.new.rest (Value.Alpha alpha)) }
{
    if alpha == alpha_of(line.number()?) {
        return Ok(());
    }
    Err(Differs::Answer)
}

// Passes the answer to a reading.
fn expect_value(line: &mut Numbers<'_>, got: Result<Value, Refusal>) -> Result<(), Differs>
    ensures { IfOk result (λ _. Answers ValueRead line.old.rest line.new.rest got) }
{
    let value = match got {
        Err(r) => return expect_refusal(line, r),
        Ok(value) => value,
    };
    line.expect(0)?;
    match value {
        Value::Number(n) => line.expect(n),
        Value::Alpha(a) => expect_alpha(line, a),
        Value::Version(v) => line.expect(u32::from(v)),
    }
}

// Performs a line `read`.
fn read(line: &mut Numbers<'_>, index: Index, slices: &Slices<'_, '_>) -> Result<(), Differs>
    ensures { IfOk result (λ _. ReadingRead line.old.rest line.new.rest) }
{
    let what = reading(line.number()?, line.number()?, line.number()?)?;
    let got = reading::read(index, slices, what);
    expect_value(line, got)
}

// Passes the length of a vector and its bytes.
fn expect_bytes(line: &mut Numbers<'_>, got: &[u8]) -> Result<(), Differs>
    ensures { IfOk result (λ _. VectorRead line.old.rest line.new.rest got.now) }
{
    if line.number()? as usize != got.len() {
        return Err(Differs::Answer);
    }
    for byte in got {
        line.expect(u32::from(*byte))?;
    }
    Ok(())
}

// Performs a line `vector`.
fn read_vector(line: &mut Numbers<'_>, index: Index, slices: &Slices<'_, '_>) -> Result<(), Differs>
    ensures { IfOk result (λ _. VectorLine line.old.rest line.new.rest) }
{
    let slot = line.number()?;
    expect_bytes(line, reading::read_vector(index, slices, slot))
}

// Passes the answer to how many words the scratch has.
fn expect_size(line: &mut Numbers<'_>, size: Result<u32, Refusal>) -> Result<(), Differs>
    ensures { IfOk result (λ _. Answers (λ from to n. Reads from to n) line.old.rest line.new.rest size) }
{
    match size {
        Err(refusal) => expect_refusal(line, refusal),
        Ok(n) => {
            line.expect(0)?;
            line.expect(n)
        }
    }
}

// Performs a line `words`.
fn size(line: &mut Numbers<'_>) -> Result<(), Differs>
    ensures { IfOk result (λ _. SizeRead line.old.rest line.new.rest) }
{
    let dim = line.number()?;
    let capacity = line.number()?;
    let degree = line.number()?;
    expect_size(line, index::scratch_words(dim, capacity, degree))
}

// Passes the slots, distances and figure numbers of candidates.
fn expect_candidates(
    line: &mut Numbers<'_>,
    slots: &[u32],
    dists: &[f32],
    figures: &[u32],
) -> Result<(), Differs>
    ensures { IfOk result (λ _. CandidatesRead line.old.rest line.new.rest slots.now dists.now figures.now) }
{
    for ((slot, dist), figure) in slots.iter().zip(dists).zip(figures) {
        line.expect(*slot)?;
        if *dist != std::num::nearest_u32_to_f32(line.number()?) {
            return Err(Differs::Answer);
        }
        line.expect(*figure)?;
    }
    Ok(())
}

// Passes the answer to a search.
fn expect_found(
    line: &mut Numbers<'_>,
    found: Result<u32, Refusal>,
    slots: &[u32],
    dists: &[f32],
    figures: &[u32],
) -> Result<(), Differs>
    ensures { IfOk result (λ _. Answered (FoundRead slots.now dists.now figures.now) line.old.rest line.new.rest found) }
{
    let Some(n) = expect_done(line, found)? else {
        return Ok(());
    };
    line.expect(n)?;
    let slots = slots.get(..n as usize).ok_or(Differs::Answer)?;
    expect_candidates(line, slots, dists, figures)
}

// Performs a line `search`.
fn search<'a>(
    line: &mut Numbers<'_>,
    state: State,
    slices: &Slices<'a, 'a>,
    scratch: &mut [u32],
) -> Result<(), Differs>
    ensures { IfOk result (λ _. SearchRead line.old.rest line.new.rest) }
{
    let mut query = [0u8; 1024];
    let mut slots = [0u32; 1024];
    let mut dists = [0.0f32; 1024];
    let mut figures = [0u32; 1024];
    let lent = state.lent;
    let k = line.argument();
    let beam = line.argument();
    let count = line.argument() as usize;
    let read = words(line, count, 0, &mut query);
    let asked = Searching {
        query: part(&query, count),
        k,
        beam,
    };
    let mut found = Found {
        slots: part_mut(&mut slots, lent.slots),
        dists: part_mut(&mut dists, lent.dists),
        numbers: part_mut(&mut figures, lent.found),
    };
    let scratch = part_mut(scratch, lent.words);
    let answer = reading::search(state.index, slices, &asked, &mut found, scratch);
    read?;
    expect_found(line, answer, &slots, &dists, &figures)
}

// Performs a line that leaves the index as it is.
pub fn perform(
    what: Looking,
    line: &mut Numbers<'_>,
    state: State,
    arrays: &Arrays<'_>,
    scratch: &mut [u32],
) -> Result<(), Differs>
    ensures { IfOk result (λ _. Looks what line.old.rest line.new.rest) }
{
    let slices = arrays.slices(state.lent);
    match what {
        Looking::Read => read(line, state.index, &slices)?,
        Looking::Vector => read_vector(line, state.index, &slices)?,
        Looking::Search => search(line, state, &slices, scratch)?,
        Looking::Words => size(line)?,
    }
    line.end()
}
