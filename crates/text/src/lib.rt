// The numbers of a line of text, read from the left and compared with answers.
#![tactic(auto)]

ghost use Rattle.std.specs.Prelude.{◌≡◌, ◌≤◌, ◌∷◌, length, take, None, Ok, MatchResult, IfOk, IfSome, IsSomeAnd};
ghost use Rattle.text.specs.declared.Differs.TheVariants.{Malformed};
ghost use Rattle.text.specs.Inner.Text.{Follows, Reads, ReadsAll, Asks, Ended};

// How a line differs: it is malformed, it asks for more than there is room for, or its answer is another one.
#[derive(Clone, Copy, PartialEq, Eq, Debug)]
pub enum Differs {
    Malformed,
    TooMuch,
    Answer,
}

// The number that a text begins with, and what follows it; none where no digit stands there, or where it is too large. In one pass, since a list is mostly numbers.
fn leading(text: &[u8]) -> Option<(u32, &[u8])>
    ensures { IfSome result (λ parts. Follows (32 ∷ text.now) parts.1.now parts.0) }
{
    let mut value: u32 = 0;
    let mut end: usize = 0;
    for byte in text {
        if !byte.is_ascii_digit() {
            break;
        }
        let next = u64::from(value) * 10 + u64::from(*byte - b'0');
        value = u32::try_from(next).ok()?;
        end += 1;
    }
    if end == 0 {
        return None;
    }
    Some((value, &text[end..]))
}

// A number as one of a smaller type.
pub fn small<T: TryFrom<u32>>(n: u32) -> Result<T, Differs>
where
    <T as TryFrom<u32>>::Error: Drop,
    ensures { MatchResult result (λ word. T.try_from_gives n (Ok word)) (λ difference. difference ≡ Malformed) }
{
    T::try_from(n).map_err(|_| Differs::Malformed)
}

// What of a line is not read yet; nothing can be read behind a number that is none.
#[derive(Drop)]
pub struct Numbers<'a> {
    pub rest: Option<&'a [u8]>,
}

impl<'a> Numbers<'a> {
    // The numbers of a text, each behind a blank.
    pub fn of(text: &'a [u8]) -> Self
        ensures { IsSomeAnd result.rest (λ rest. rest.now ≡ text.now) }
    {
        Numbers { rest: Some(text) }
    }

    // The next number.
    pub fn number(&mut self) -> Result<u32, Differs>
        ensures { MatchResult result (λ n. Reads self.old.rest self.new.rest n) (λ _. self.new.rest ≡ None) }
    {
        let rest = self.rest.take().ok_or(Differs::Malformed)?;
        let text = rest.strip_prefix(b" ").ok_or(Differs::Malformed)?;
        let (value, rest) = leading(text).ok_or(Differs::Malformed)?;
        self.rest = Some(rest);
        Ok(value)
    }

    // The next number as what a call is given: 0 where there is none, and nothing can be read behind it.
    pub fn argument(&mut self) -> u32
        ensures { Asks self.old.rest self.new.rest result }
    {
        self.number().unwrap_or(0)
    }

    // Passes the next number, which is to be this answer.
    pub fn expect(&mut self, answer: u32) -> Result<(), Differs>
        ensures { IfOk result (λ _. Reads self.old.rest self.new.rest answer) }
    {
        if self.number()? == answer {
            return Ok(());
        }
        Err(Differs::Answer)
    }

    // Passes numbers that are to be these answers.
    pub fn expect_all(&mut self, answers: &[u32]) -> Result<(), Differs>
        ensures { IfOk result (λ _. ReadsAll self.old.rest self.new.rest answers.now) }
    {
        for answer in answers {
            self.expect(*answer)?;
        }
        Ok(())
    }

    // Passes n numbers, which are to be the first n of these answers.
    pub fn expect_first(&mut self, n: usize, answers: &[u32]) -> Result<(), Differs>
        ensures { IfOk result (λ _. (n ≤ length answers.now) × ReadsAll self.old.rest self.new.rest (take n answers.now)) }
    {
        self.expect_all(answers.get(..n).ok_or(Differs::Answer)?)
    }

    // Whether every number was read.
    pub fn end(&self) -> Result<(), Differs>
        ensures { IfOk result (λ _. Ended self.now.rest) }
    {
        if self.rest == Some(b"") {
            return Ok(());
        }
        Err(Differs::Malformed)
    }
}
