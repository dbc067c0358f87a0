// The names of a delete: slots, or figure numbers, which are translated into slots.
ghost use Rattle.std.specs.Prelude.{◌≡◌, ◌≤◌, length};
ghost use Rattle.slots.specs.Sizes.{limits};
ghost use Rattle.index.specs.Lent.{slices_of};
ghost use Rattle.updating.specs.Delete.{deleting_of};
ghost use Rattle.updating.specs.Inner.Emptying.{BySlots};

use super::deleting::Deleting;
use index::refusals::check_index;
use index::{Index, Slices};
use numbers::Labels;
use slots::limits;

// What the names of a delete are: slots, or figure numbers.
#[derive(Clone, Copy, PartialEq)]
pub enum Naming {
    Slots,
    Numbers,
}

// The same delete by slots; those that its names carry as numbers are written to the front of `slots`. Where a test that calls share turns the index back, or
// there are more numbers than a delete may name, the names stand for slots: that test, or 7, turns the delete back.
pub fn by_slots<'a>(
    index: Index,
    slices: &Slices<'_, '_>,
    asked: Deleting<'a>,
    slots: &'a mut [u32],
) -> Deleting<'a>
    requires { limits.ids ≤ length slots.old }
    ensures { BySlots index (slices_of slices.now) (deleting_of asked.entry) (deleting_of result) }
{
    let n = asked.names.len();
    if asked.naming == Naming::Numbers
        && n <= limits::IDS as usize
        && check_index(index, slices, false).is_ok()
    {
        let labels = Labels {
            numbers: slices.numbers,
            summary: &slices.summary[..index.live as usize],
        };
        labels.slots_of(asked.names, slots);
        return Deleting {
            names: &slots[..n],
            naming: Naming::Slots,
            ..asked
        };
    }
    Deleting {
        naming: Naming::Slots,
        ..asked
    }
}
