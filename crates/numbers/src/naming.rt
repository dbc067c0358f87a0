// The slot that a number names.
ghost use Rattle.std.specs.Prelude.{map, ◌≡◌, ◌≤◌, length};
ghost use Rattle.lists.specs.Lists.{put_front};
ghost use Rattle.sorting.specs.Inner.Places.{Placed, Risen};
ghost use Rattle.numbers.specs.Numbers.{slot_of};
ghost use Rattle.numbers.specs.Inner.Chunks.{Met};
ghost use Rattle.numbers.specs.Inner.Held.{any_in, carrier};
ghost use Rattle.numbers.specs.Inner.Listed.{Listed};

use slots::rows::BLANK;
use sorting::below;

// The numbers of all slots, and those that carry one, by rising number.
#[derive(Clone, Copy)]
pub struct Labels<'a> {
    pub numbers: &'a [u32],
    pub summary: &'a [u32],
    pub ghost listed: { Listed numbers.now summary.now (length summary.now) },
}

// The place in `order` of the key `key`.
pub fn place(keys: &[u32], order: &[u32], key: u32) -> Option<usize>
    requires { Placed keys.now order.now (length order.now) × Risen keys.now order.now (length order.now) }
    ensures { Met keys.now order.now (length order.now) key result }
{
    let r = below(keys, order, key);
    (r < order.len() && keys[order[r] as usize] == key).then_some(r)
}

impl Labels<'_> {
    // The slot that carries `number`.
    fn slot_of(&self, number: u32) -> Option<u32>
        ensures { result ≡ carrier self.now.numbers.now number }
    {
        if number == 0 {
            return None;
        }
        let i = place(self.numbers, self.summary, number)?;
        Some(self.summary[i])
    }

    // Writes the slots that `names` name to the front of `slots`; blank where none carries the number. Numbers, and no `Option`s: `slots` is a list that a delete of
    // slots is then given, where blank names no slot.
    pub fn slots_of(&self, names: &[u32], slots: &mut [u32])
        requires { length names.now ≤ length slots.old }
        ensures { slots.new ≡ put_front (map (slot_of self.now.numbers.now) names.now) slots.old }
    {
        for (i, name) in names.iter().enumerate() {
            slots[i] = self.slot_of(*name).unwrap_or(BLANK);
        }
    }

    // Whether a live slot carries one of the given numbers.
    pub fn any_live(&self, given: &[u32]) -> bool
        ensures { result ≡ any_in self.now.numbers.now given.now }
    {
        given.iter().any(|number| self.slot_of(*number).is_some())
    }
}
