// Document 01's small shelf: it is made with the numbers 30, 10 and 20 and a weight of 1, 6 is inserted with 41 and slot 1 deleted; then it is printed, as
// read.
#![tactic(auto)]

use index::{DeleteSlices, Index, InsertSlices, Making, NewSlices, Refusal};
use reading::{Reading, Value};
use slots::rows::BLANK;
use std::io;
use updating::{Changed, Deleting, Inserting, Naming};

// What was read as a number; none where it was turned back.
fn number(value: Result<Value, Refusal>) -> Option<u32> {
    match value {
        Ok(Value::Number(n)) => Some(n),
        Ok(Value::Version(n)) => Some(u32::from(n)),
        Ok(Value::Alpha(_)) | Err(_) => None,
    }
}

// Prints a slot that can be read: its mark, version and live targets, at most two.
fn print_slot<F: Fn(Reading) -> Option<u32>>(rt: &impl Print, read: &F, slot: u32) -> io::Result<()>
    requires { F.IsAlwaysCallable read.now }
{
    let (Some(mark), Some(version)) = (read(Reading::Mark(slot)), read(Reading::Version(slot)))
    else {
        return Ok(());
    };
    print!(rt; "{slot} {mark} {version}")?;
    for place in 0..2 {
        // Blank is how C gets a target that is none: see `answer` of reading.
        let target = read(Reading::Target(slot, place)).filter(|t| *t != BLANK);
        if let Some(target) = target {
            print!(rt; " {target}")?;
        }
    }
    rt.println("")
}

// Prints a shelf that can be read: entry and live count, then each slot.
fn print_shelf<F: Fn(Reading) -> Option<u32>>(rt: &impl Print, read: &F) -> io::Result<()>
    requires { F.IsAlwaysCallable read.now }
{
    let (Some(entry), Some(live)) = (read(Reading::Entry), read(Reading::Live)) else {
        return Ok(());
    };
    println!(rt; "entry {entry} live {live}")?;
    for slot in 0..4 {
        print_slot(rt, read, slot)?;
    }
    Ok(())
}

// Makes the shelf.
fn make(slices: &mut NewSlices<'_>) -> Result<Index, Refusal> {
    let given = Making {
        dim: 1,
        capacity: 4,
        degree: 2,
        alpha: 1.0,
        entry: 1,
        count: 3,
        bytes: &[0, 3, 10],
        rows: &[1, BLANK, 0, 2, 1, BLANK],
        numbers: &[30, 10, 20],
        weights: &[1],
    };
    index::create(&given, slices)
}

// Inserts 6 with the number 41.
fn insert(
    index: Index,
    slices: &mut NewSlices<'_>,
    scratch: &mut [u32],
) -> Result<Changed, Refusal> {
    let mut slots = [0u32; 1];
    let asked = Inserting {
        bytes: &[6],
        numbers: &[41],
        beam: 2,
    };
    let versions = &mut *slices.versions;
    let pool = &mut *slices.pool;
    let weights = &mut *slices.weights;
    let mut slices = InsertSlices {
        vectors: slices.vectors,
        targets: slices.targets,
        edges: slices.edges,
        versions,
        marks: slices.marks,
        pool,
        numbers: slices.numbers,
        summary: slices.summary,
        weights,
    };
    updating::insert(index, &mut slices, &asked, &mut slots, scratch)
}

// Deletes slot 1.
fn delete(
    index: Index,
    slices: &mut NewSlices<'_>,
    scratch: &mut [u32],
) -> Result<Changed, Refusal> {
    let asked = Deleting {
        names: &[1],
        naming: Naming::Slots,
        repair_beam: 2,
        repair_degree: 1,
    };
    let vectors = &mut *slices.vectors;
    let pool = &mut *slices.pool;
    let weights = &mut *slices.weights;
    let mut slices = DeleteSlices {
        vectors,
        targets: slices.targets,
        edges: slices.edges,
        versions: slices.versions,
        marks: slices.marks,
        pool,
        numbers: slices.numbers,
        summary: slices.summary,
        weights,
    };
    updating::delete(index, &mut slices, &asked, 1, scratch)
}

// Makes the shelf, inserts 6 and deletes slot 1, with as many words of scratch as `index::scratch_words` says.
fn changed(slices: &mut NewSlices<'_>) -> Result<Index, Refusal> {
    let mut scratch = [0u32; 169988];
    let shelf = make(slices)?;
    let fuller = insert(shelf, slices, &mut scratch)?;
    let left = delete(fuller.index, slices, &mut scratch)?;
    Ok(left.index)
}

fn main(rt: HostRuntime) -> io::Result<()> {
    let mut slices = NewSlices {
        vectors: &mut [0; 4],
        targets: &mut [0; 8],
        edges: &mut [0; 8],
        versions: &mut [0; 4],
        marks: &mut [0; 4],
        pool: &mut [0; 1024],
        numbers: &mut [0; 4],
        summary: &mut [0; 4],
        weights: &mut [0; 1],
    };
    let Ok(index) = changed(&mut slices) else {
        return Ok(());
    };
    let read = |what: Reading| number(reading::read(index, &slices.read(), what));
    print_shelf(&rt, &read)
}
