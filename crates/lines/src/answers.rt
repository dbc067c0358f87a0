// The status that an answer begins with.
ghost use Rattle.std.specs.Prelude.{◌≡◌, None, Some, IfOk, MatchResult};
ghost use Rattle.index.specs.Refusal.{number_of};
ghost use Rattle.text.specs.Inner.Text.{Reads};

use index::Refusal;
use text::{Differs, Numbers};

// Passes the status of an answer, 0 or the number of its refusal, and gives what was answered where it is not refused.
pub fn expect_done<T: Copy>(
    line: &mut Numbers<'_>,
    answer: Result<T, Refusal>,
) -> Result<Option<T>, Differs>
    ensures { MatchResult answer
        (λ x. IfOk result (λ given. (given ≡ Some x) × Reads line.old.rest line.new.rest 0))
        (λ refusal. IfOk result (λ given. (given ≡ None) × Reads line.old.rest line.new.rest (number_of refusal))) }
{
    match answer {
        Err(r) => {
            line.expect(r as u32)?;
            Ok(None)
        }
        Ok(done) => {
            line.expect(0)?;
            Ok(Some(done))
        }
    }
}
