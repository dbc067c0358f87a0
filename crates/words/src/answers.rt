// An answer for C.
ghost use Rattle.std.specs.Prelude.{◌≡◌};
ghost use Rattle.index.specs.Refusal.{number_of};
ghost use Rattle.words.specs.Given.{put};

use index::Refusal;

// The status of a refusal.
pub fn number_of(refusal: Refusal) -> u32
    ensures { result ≡ number_of refusal }
{
    refusal as u32
}

// Writes the value of an answer, and gives its status: 0, or the number of the refusal.
pub fn put<T: Copy>(answer: Result<T, Refusal>, value: &mut T) -> u32
    ensures { (result, value.new) ≡ put answer value.old }
{
    match answer {
        Ok(x) => {
            *value = x;
            0
        }
        Err(e) => number_of(e),
    }
}
