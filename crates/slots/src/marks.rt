// A mark for each slot.
ghost use Rattle.std.specs.Prelude.{◌≡◌, ◌+◌, ◌<◌, ◌≤◌, length};
ghost use Rattle.lists.specs.Lists.{filter, range};
ghost use Rattle.vectors.specs.Vector.{Bytes};
ghost use Rattle.slots.specs.Store.{is_valid};
ghost use Rattle.slots.specs.Inner.Rows.{LiveVector};

use vectors::vector;

// Whether slot `s` is live; a slot outside is not.
pub fn is_valid(marks: &[u8], s: usize) -> bool
    ensures { result ≡ is_valid marks.now s }
{
    s < marks.len() && marks[s] != 0
}

// How many of at most 128 marks are not 0: in a byte, so that the compiler takes 16 marks at a time.
fn count_block(marks: &[u8]) -> u8
    requires { length marks.now ≤ 128 }
    ensures { result ≡ length (filter (is_valid marks.now) (range 0 (length marks.now))) }
{
    let mut n: u8 = 0;
    for mark in marks {
        n += u8::from(*mark != 0);
    }
    n
}

// How many slots are live.
pub fn count_valid(marks: &[u8]) -> usize
    ensures { result ≡ length (filter (is_valid marks.now) (range 0 (length marks.now))) }
{
    let mut n: usize = 0;
    for block in marks.chunks(128) {
        n += usize::from(count_block(block));
    }
    n
}

// The vector of slot `s` as that part of the lent bytes; the empty part for a slot that is dead or outside.
pub fn live_vector<'a>(dim: usize, vectors: &'a [u8], marks: &[u8], s: usize) -> &'a [u8]
    requires { Bytes dim (length marks.now) vectors.now }
    ensures { LiveVector dim vectors.entry marks.now s result }
{
    if is_valid(marks, s) {
        return vector(dim, vectors, s);
    }
    &vectors[..0]
}
