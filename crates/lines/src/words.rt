// The word that a line begins with.
ghost use Rattle.std.specs.Prelude.{◌≡◌, ◌++◌, IfOk, IsSomeAnd};
ghost use Rattle.lines.specs.Inner.Words.{word_of};

use text::{Differs, Numbers};

// What prepares calls.
#[derive(Clone, Copy, PartialEq, Eq)]
pub enum Preparing {
    Lend,
    Give,
    Rows,
    Numbers,
    Weights,
    Set,
    Store,
}

// What makes or changes an index.
#[derive(Clone, Copy, PartialEq, Eq)]
pub enum Changing {
    Make,
    Insert,
    Delete,
}

// What the guard is asked for.
#[derive(Clone, Copy, PartialEq, Eq)]
pub enum Guarding {
    Enable,
    Status,
    Assess,
    Guarded,
}

// What leaves an index as it is.
#[derive(Clone, Copy, PartialEq, Eq)]
pub enum Looking {
    Read,
    Vector,
    Search,
    Words,
}

// What a line asks for.
#[derive(Clone, Copy, PartialEq, Eq)]
pub enum Call {
    Prepare(Preparing),
    Change(Changing),
    Guard(Guarding),
    Look(Looking),
}

// The word for each thing that a line asks for: what prepares calls, then the calls in the order in which they are counted.
pub const WORDS: [(&str, Call); 18] = [
    ("lend", Call::Prepare(Preparing::Lend)),
    ("give", Call::Prepare(Preparing::Give)),
    ("rows", Call::Prepare(Preparing::Rows)),
    ("numbers", Call::Prepare(Preparing::Numbers)),
    ("weights", Call::Prepare(Preparing::Weights)),
    ("set", Call::Prepare(Preparing::Set)),
    ("store", Call::Prepare(Preparing::Store)),
    ("make", Call::Change(Changing::Make)),
    ("read", Call::Look(Looking::Read)),
    ("vector", Call::Look(Looking::Vector)),
    ("search", Call::Look(Looking::Search)),
    ("words", Call::Look(Looking::Words)),
    ("insert", Call::Change(Changing::Insert)),
    ("delete", Call::Change(Changing::Delete)),
    ("enable", Call::Guard(Guarding::Enable)),
    ("status", Call::Guard(Guarding::Status)),
    ("assess", Call::Guard(Guarding::Assess)),
    ("guarded", Call::Guard(Guarding::Guarded)),
];

impl TryFrom<&[u8]> for Call {
    ghost use Rattle.std.specs.Prelude.{◌≡◌, IfOk};
    ghost use Rattle.lines.specs.Inner.Words.{word_of};

    type Error = Differs;

    ghost try_from_gives = { λ word result. IfOk result (λ call. word.now ≡ word_of call) };

    fn try_from(word: &[u8]) -> Result<Self, Differs> {
        let named = WORDS.iter().find(|(name, _)| name.as_bytes() == word);
        let (_, call) = named.ok_or(Differs::Malformed)?;
        Ok(*call)
    }
}

// What a line asks for, and its numbers.
pub fn parted(line: &[u8]) -> Result<(Call, Numbers<'_>), Differs>
    ensures { IfOk result (λ parts. IsSomeAnd parts.1.rest (λ rest. line.now ≡ word_of parts.0 ++ rest.now)) }
{
    let end = line.iter().position(|byte| *byte == b' ');
    let (word, numbers) = line.split_at(end.ok_or(Differs::Malformed)?);
    Ok((Call::try_from(word)?, Numbers::of(numbers)))
}
