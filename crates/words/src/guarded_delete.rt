// The guarded delete on an index that words hold, but for the records of its stats.
ghost use Rattle.std.specs.Prelude.{not, ◌≡◌, T, Ok};
ghost use Rattle.std.specs.Float.Ieee.{is_nan};
ghost use Rattle.admission.specs.Lent.{SameLists};
ghost use Rattle.index.specs.Lent.{delete_slices_of, SameDeleteSlices};
ghost use Rattle.admission.specs.declared.report.Report as Reported;
ghost use Rattle.updating.specs.declared.Changed as Change;
ghost use Rattle.updating.specs.Delete.{deleting_of};
ghost use Rattle.guarding.specs.declared.Guarded.TheVariants.{Applied};
ghost use Rattle.words.specs.Given.{map_ok, put, guarded_words};
ghost use Rattle.words.specs.Inner.Putting.{guarded_left, SameWritten, LeavesGuarded};

use super::answers::number_of;
use super::deleting::Left;
use super::guard_calls::words_of_report;
use super::index_words::{index_from, words_from};
use admission::Lists;
use deletion::stats_place;
use guarding::Guarded;
use index::{DeleteSlices, Refusal};
use updating::Deleting;

// Where a guarded delete writes the index's words, how many slots it empties, and the report's numbers.
#[derive(Drop)]
pub struct Written<'a> {
    pub words: &'a mut [u32; 12],
    pub found: &'a mut u32,
    pub report: &'a mut [u32; 8],
}

// Writes the numbers of the report and how many slots are emptied; where the delete is applied, the words of the index without them too.
fn put_guarded(answer: Result<Guarded, Refusal>, place: usize, written: &mut Written<'_>) -> Left
    requires { (c : Change.Changed) (v : Reported.Report) → answer ≡ Ok (Applied c v) → T (not (is_nan c.index.alpha)) }
    ensures { ((result.status, (written.new.words.now, written.new.found.now, written.new.report.now)) ≡ put (map_ok (guarded_words written.old.words.now) answer) (written.old.words.now, written.old.found.now, written.old.report.now)) × ((result.at, result.count) ≡ guarded_left answer place) × SameWritten written.old written.new }
{
    match answer {
        Ok(Guarded::Applied(c, r)) => {
            *written.words = words_from(c.index);
            *written.found = c.count;
            *written.report = words_of_report(r);
            Left {
                status: 0,
                at: place,
                count: c.count as usize,
            }
        }
        Ok(Guarded::Deferred(r)) => {
            *written.found = 0;
            *written.report = words_of_report(r);
            Left {
                status: 0,
                at: 0,
                count: 0,
            }
        }
        Err(e) => Left {
            status: number_of(e),
            at: 0,
            count: 0,
        },
    }
}

// All of a guarded delete but its records.
pub fn guarded_words(
    written: &mut Written<'_>,
    slices: &mut DeleteSlices<'_>,
    asked: &Deleting<'_>,
    room: usize,
    lists: &mut Lists<'_>,
    scratch: &mut [u32],
) -> Left
    ensures { LeavesGuarded written.old.words.now (delete_slices_of slices.old) (deleting_of asked.now) room lists.old.checked.now lists.old.lost.now scratch.old written.new.words.now (delete_slices_of slices.new) lists.new.checked.now lists.new.lost.now scratch.new written.old.found.now written.new.found.now written.old.report.now written.new.report.now result × SameDeleteSlices slices.old slices.new × SameLists lists.old lists.new × SameWritten written.old written.new }
{
    let held = index_from(written.words);
    let place = stats_place(held.capacity);
    let answer = guarding::guarded_delete(held, slices, asked, room, lists, scratch);
    put_guarded(answer, place, written)
}
