// Performs the calls of a stored list of histories, and compares each answer with the stored one. compare/replay/README.md has the form of the list and
// says where its answers come from. It prints the number of each line that differs, malformed ones and those that ask for more than its arrays hold
// included, and then how many calls of each kind agreed, how many lines there were, and how many differed. The list has wrong answers of every kind, so
// that a comparison that does not compare is seen.
#![tactic(auto)]

ghost use Rattle.std.specs.Prelude.{◌≤◌, length, IfOk};

use index::Index;
use lines::prepare::{Arrays, Lent, State};
use lines::words::{Call, WORDS, parted};
use std::io;
use std::io::Read;
use text::Differs;

// How many lines with each word agreed, how many lines there were, and how many differed.
#[derive(Clone, Copy)]
struct Counts {
    agreed: [u64; WORDS.len()],
    lines: u64,
    differences: u64,
}

impl Counts {
    // Counts a line that agreed.
    fn agree(&mut self, call: Call) {
        for (n, (_, counted)) in self.agreed.iter_mut().zip(&WORDS) {
            if *counted == call {
                *n = n.wrapping_add(1);
            }
        }
    }

    // Prints the counts; what prepares a call has no answer that could differ.
    fn report(&self, rt: &impl Print) -> io::Result<()> {
        for (n, (word, call)) in self.agreed.iter().zip(&WORDS) {
            if let Call::Prepare(_) = call {
                continue;
            }
            println!(rt; "{word} {n}")?;
        }
        let lines = self.lines;
        let differences = self.differences;
        println!(rt; "lines {lines}")?;
        println!(rt; "differences {differences}")
    }
}

// The state before any line: no index is made, and nothing is lent.
fn nothing() -> State {
    State {
        index: Index {
            dim: 0,
            capacity: 0,
            degree: 0,
            alpha: 0.0,
            entry: 0,
            live: 0,
            guard: None,
        },
        lent: Lent::default(),
    }
}

// Performs a line, and says what it asks for.
fn perform(
    line: &[u8],
    state: &mut State,
    arrays: &mut Arrays<'_>,
    scratch: &mut [u32],
) -> Result<Call, Differs> {
    let (call, mut rest) = parted(line)?;
    match call {
        Call::Prepare(what) => lines::prepare::perform(what, &mut rest, state, arrays)?,
        Call::Change(what) => changes::perform(what, &mut rest, state, arrays, scratch)?,
        Call::Guard(what) => guards::perform(what, &mut rest, state, arrays, scratch)?,
        Call::Look(what) => looks::perform(what, &mut rest, *state, arrays, scratch)?,
    }
    Ok(call)
}

// Counts a line, which is not a note. Where it differs its number is printed, and the line is written to standard error.
fn count(
    rt: &impl Print,
    errors: &impl Print,
    counts: &mut Counts,
    line: &[u8],
    performed: Result<Call, Differs>,
) -> io::Result<()> {
    counts.lines = counts.lines.wrapping_add(1);
    match performed {
        Ok(call) => {
            counts.agree(call);
            Ok(())
        }
        Err(_) => {
            counts.differences = counts.differences.wrapping_add(1);
            let number = counts.lines;
            println!(rt; "differs {number}")?;
            errors.write_all(line)?;
            errors.println("")
        }
    }
}

// Performs every line of a list.
fn replay(
    rt: &impl Print,
    errors: &impl Print,
    list: &[u8],
    arrays: &mut Arrays<'_>,
    scratch: &mut [u32],
) -> io::Result<Counts> {
    let mut counts = Counts {
        agreed: [0; WORDS.len()],
        lines: 0,
        differences: 0,
    };
    let mut state = nothing();
    for line in list.split_inclusive(|byte| *byte == b'\n') {
        let line = line.strip_suffix(b"\n").unwrap_or(line);
        if line.starts_with(b"#") {
            continue;
        }
        let performed = perform(line, &mut state, arrays, scratch);
        count(rt, errors, &mut counts, line, performed)?;
    }
    Ok(counts)
}

// Performs a list, with memory for its calls.
fn replay_list(rt: &impl Print, errors: &impl Print, list: &[u8]) -> io::Result<()> {
    let mut given = [0u8; 262144];
    let mut rows = [0u32; 131072];
    let mut figures = [0u32; 2048];
    let mut given_weights = [0u8; 256];
    let mut vectors = [0u8; 262144];
    let mut targets = [0u32; 131072];
    let mut edges = [0u16; 131072];
    let mut versions = [0u16; 65536];
    let mut marks = [0u8; 65536];
    let mut pool = [0u32; 1024];
    let mut numbers = [0u32; 65536];
    let mut summary = [0u32; 65536];
    let mut weights = [0u8; 256];
    let mut scratch = [0u32; 235520];
    let mut arrays = Arrays {
        given: &mut given,
        rows: &mut rows,
        figures: &mut figures,
        given_weights: &mut given_weights,
        vectors: &mut vectors,
        targets: &mut targets,
        edges: &mut edges,
        versions: &mut versions,
        marks: &mut marks,
        pool: &mut pool,
        numbers: &mut numbers,
        summary: &mut summary,
        weights: &mut weights,
    };
    let counts = replay(rt, errors, list, &mut arrays, &mut scratch)?;
    counts.report(rt)
}

// Reads from the input until it ends or the list is full, and returns how many bytes it put at the list's start. Not a `for`: a turn goes on as far as was read.
fn read_full(input: &mut impl Read, list: &mut [u8]) -> io::Result<usize>
    ensures { IfOk result (λ n. n ≤ length list.new) }
{
    let mut done: usize = 0;
    while done < list.len() {
        let n = input.read(&mut list[done..])?;
        if n == 0 {
            break;
        }
        done += n;
    }
    Ok(done)
}

// Reads the list, as far as the lent memory holds it, and performs it.
fn replay_input(
    rt: &(impl Input + Print),
    errors: &impl Print,
    list: &mut [u8; 524288],
) -> io::Result<()> {
    let n = read_full(&mut rt.reader(), list)?;
    replay_list(rt, errors, &list[..n])
}

fn main(rt: HostRuntime) -> io::Result<()> {
    let mut list = [0u8; 524288];
    replay_input(&rt, &rt.stderr(), &mut list)
}
