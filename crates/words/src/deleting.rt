// Delete on an index that words hold, but for the records of its stats.
ghost use Rattle.std.specs.Prelude.{not, ◌≡◌, T, Ok};
ghost use Rattle.std.specs.Float.Ieee.{is_nan};
ghost use Rattle.index.specs.Lent.{delete_slices_of, SameDeleteSlices};
ghost use Rattle.updating.specs.declared.Changed as Change;
ghost use Rattle.updating.specs.Delete.{deleting_of};
ghost use Rattle.words.specs.Given.{map_ok, put, changed_words};
ghost use Rattle.words.specs.Inner.Putting.{stats_left, LeavesStats};

use super::changing::put_changed;
use super::index_words::index_from;
use deletion::stats_place;
use index::{DeleteSlices, Refusal};
use updating::{Changed, Deleting};

// A delete's status, and where in the scratch the words of how many stats stand: of 0, at 0, where it writes none. All three are used whatever the status is: it is
// returned to C, and `count` records are written from `at` on. An `Option` of a place would only be turned into these again.
#[derive(Clone, Copy)]
pub struct Left {
    pub status: u32,
    pub at: usize,
    pub count: usize,
}

// Writes what a delete changed.
fn put_deleted(
    answer: Result<Changed, Refusal>,
    place: usize,
    words: &mut [u32; 12],
    found: &mut u32,
) -> Left
    requires { (c : Change.Changed) → answer ≡ Ok c → T (not (is_nan c.index.alpha)) }
    ensures { ((result.status, (words.new, found.new)) ≡ put (map_ok changed_words answer) (words.old, found.old)) × ((result.at, result.count) ≡ stats_left answer place) }
{
    let status = put_changed(answer, words, found);
    match answer {
        Ok(c) => Left {
            status,
            at: place,
            count: c.count as usize,
        },
        Err(_) => Left {
            status,
            at: 0,
            count: 0,
        },
    }
}

// All of a delete but its records.
pub fn delete_words(
    words: &mut [u32; 12],
    slices: &mut DeleteSlices<'_>,
    asked: &Deleting<'_>,
    room: usize,
    scratch: &mut [u32],
    found: &mut u32,
) -> Left
    ensures { LeavesStats words.old (delete_slices_of slices.old) (deleting_of asked.now) room scratch.old words.new (delete_slices_of slices.new) scratch.new found.old found.new result × SameDeleteSlices slices.old slices.new }
{
    let held = index_from(words);
    let place = stats_place(held.capacity);
    let answer = updating::delete(held, slices, asked, room, scratch);
    put_deleted(answer, place, words, found)
}
