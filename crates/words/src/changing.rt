// What a call writes that makes an index, or inserts or deletes.
ghost use Rattle.std.specs.Prelude.{not, ◌≡◌, T, Ok};
ghost use Rattle.std.specs.Float.Ieee.{is_nan};
ghost use Rattle.index.specs.declared.Index as Made;
ghost use Rattle.updating.specs.declared.Changed as Change;
ghost use Rattle.words.specs.IndexWords.{words_of};
ghost use Rattle.words.specs.Given.{map_ok, put, changed_words};

use super::answers::{number_of, put};
use super::index_words::words_from;
use index::{Index, Refusal};
use updating::Changed;

// Writes the words of an index that was made.
#[tactic(auto, using(crate::proofs::Told::put_mapped))]
pub fn put_created(made: Result<Index, Refusal>, words: &mut [u32; 12]) -> u32
    requires { (i : Made.Index) → made ≡ Ok i → T (not (is_nan i.alpha)) }
    ensures { (result, words.new) ≡ put (map_ok words_of made) words.old }
{
    put(made.map(words_from), words)
}

// Writes the words of an index that was changed, and how many slots were filled or emptied: two places, where `put` writes one.
pub fn put_changed(answer: Result<Changed, Refusal>, words: &mut [u32; 12], found: &mut u32) -> u32
    requires { (c : Change.Changed) → answer ≡ Ok c → T (not (is_nan c.index.alpha)) }
    ensures { (result, (words.new, found.new)) ≡ put (map_ok changed_words answer) (words.old, found.old) }
{
    match answer {
        Ok(c) => {
            *words = words_from(c.index);
            *found = c.count;
            0
        }
        Err(e) => number_of(e),
    }
}
