// What the guard's calls write. `words_of_status` and `words_of_report` are no `From`: both types of each are another crate's or the language's.
ghost use Rattle.std.specs.Prelude.{not, ◌≡◌, T, Ok};
ghost use Rattle.std.specs.Float.Ieee.{is_nan};
ghost use Rattle.guarding.specs.declared.Enabled as GuardEnabled;
ghost use Rattle.words.specs.GuardWords.{report_words};
ghost use Rattle.words.specs.Given.{map_ok, put, standing_words, enabled_words};

use super::answers::{number_of, put};
use super::index_words::words_from;
use admission::Report;
use guarding::{Enabled, Status};
use index::Refusal;
use slots::rows::BLANK;

// The words that a status is written as.
#[tactic(auto, using(crate::proofs::Told::flag_is), unfolding(crate::specs::GuardWords::status_words))]
fn words_of_status(status: Status) -> [u32; 5]
    ensures { result ≡ standing_words status }
{
    [
        u32::from(status.enabled),
        status.pool,
        status.live,
        status.count,
        status.beam,
    ]
}

// The words that a report's numbers are written as.
#[tactic(auto, using(crate::proofs::Told::flag_is), unfolding(crate::specs::GuardWords::report_words))]
pub fn words_of_report(report: Report) -> [u32; 8]
    ensures { result ≡ report_words report }
{
    [
        u32::from(report.admitted),
        report.requested,
        report.entry.unwrap_or(BLANK),
        report.checked,
        report.baseline,
        report.residual,
        report.lost,
        report.supplemental,
    ]
}

// Writes the guard's status.
#[tactic(auto, using(crate::proofs::Told::put_mapped))]
pub fn put_status(answer: Result<Status, Refusal>, status: &mut [u32; 5]) -> u32
    ensures { (result, status.new) ≡ put (map_ok standing_words answer) status.old }
{
    put(answer.map(words_of_status), status)
}

// Writes the numbers of a report.
#[tactic(auto, using(crate::proofs::Told::put_mapped))]
pub fn put_report(answer: Result<Report, Refusal>, report: &mut [u32; 8]) -> u32
    ensures { (result, report.new) ≡ put (map_ok report_words answer) report.old }
{
    put(answer.map(words_of_report), report)
}

// Writes the words of an index whose guard was enabled, and the guard's status: two places, where `put` writes one.
pub fn put_enabled(
    answer: Result<Enabled, Refusal>,
    words: &mut [u32; 12],
    status: &mut [u32; 5],
) -> u32
    requires { (n : GuardEnabled.Enabled) → answer ≡ Ok n → T (not (is_nan n.index.alpha)) }
    ensures { (result, (words.new, status.new)) ≡ put (map_ok enabled_words answer) (words.old, status.old) }
{
    match answer {
        Ok(n) => {
            *words = words_from(n.index);
            *status = words_of_status(n.status);
            0
        }
        Err(e) => number_of(e),
    }
}
