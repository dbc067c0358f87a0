// Selecting landmarks: the sample, its distances to the references, and the choice.
ghost use Rattle.std.specs.Prelude.{length};
ghost use Rattle.vectors.specs.Space.{slot_distance};
ghost use Rattle.vectors.specs.Lent.{space_of};
ghost use Rattle.landmarks.specs.Inner.Samples.{remains};
ghost use Rattle.landmarks.specs.Inner.Choices.{landmarks_by, Selectable, Fronted};

use super::choose::{choose, draw_all};
use super::sample::{Free, take_sample};
use slots::scratch::MARKS;
use vectors::Space;

// Selects `wanted` landmarks at most of the slots that are free, and writes them to the front of a list. Returns how many they are. The entry and the slots kept
// are references.
pub fn select_landmarks(
    space: &Space<'_>,
    free: &Free<'_>,
    wanted: usize,
    sample: usize,
    list: &mut [u32],
    scratch: &mut [u32],
) -> usize
    requires { Selectable space.now free.now wanted sample list.old scratch.old }
    ensures { Fronted (landmarks_by (slot_distance (space_of space.now)) (remains free.now.marks.now free.now.ids.now) (length free.now.marks.now) free.now.entry wanted sample free.now.kept.now) list.old list.new result }
{
    if wanted == 0 {
        return 0;
    }
    let words = &mut scratch[MARKS + free.marks.len()..];
    let n = take_sample(free, wanted, sample, words);
    let m = draw_all(space, free.entry, free.kept, &mut words[..2 * n]);
    choose(space, wanted, list, &mut words[..2 * m])
}
