// The summary written: by making, insert and delete. How many slots are live stands beside it: callers have the whole summary, a word for each slot,
// and what is behind the live ones is written too.
ghost use Rattle.std.specs.Prelude.{◌≡◌, ◌+◌, ◌≤◌, length};
ghost use Rattle.lists.specs.Lists.{range};
ghost use Rattle.numbers.specs.Inner.Listed.{Apart, Summarized, Entering, Entered, Packed, Struck};

use super::writing::zero_dead;
use slots::marks::is_valid;
use slots::parts::copy;
use slots::rows::BLANK;
use sorting::{settle, sort};

// Writes `from`, `from + 1`, .. to the places.
pub fn count_up(order: &mut [u32], from: usize)
    requires { from + length order.old ≤ 65536 }
    ensures { order.new ≡ range from (length order.old) }
{
    for (i, s) in order.iter_mut().enumerate() {
        *s = (from + i) as u32;
    }
}

// The summary of the first `count` slots.
pub fn summarize(numbers: &[u32], summary: &mut [u32], count: usize)
    requires { Apart numbers.now count × (length summary.old ≡ length numbers.now) }
    ensures { Summarized numbers.now count summary.new }
{
    count_up(&mut summary[..count], 0);
    summary[count..].fill(BLANK);
    sort(numbers, &mut summary[..count]);
}

// Enters slots, which have their numbers, into the summary of `live` others.
pub fn enter(numbers: &[u32], summary: &mut [u32], live: usize, slots: &[u32])
    requires { Entering numbers.now summary.old live slots.now }
    ensures { Entered numbers.now summary.old live slots.now summary.new }
{
    let n = slots.len();
    let end = live + n;
    copy(&mut summary[live..end], slots);
    if n <= 16 {
        settle(numbers, &mut summary[..end], live);
        return;
    }
    sort(numbers, &mut summary[..end]);
}

// Moves the live ones of the first `live` words to the front, in their order; how many they are.
fn keep_live(marks: &[u8], summary: &mut [u32], live: usize) -> usize
    requires { live ≤ length summary.old }
    ensures { Packed marks.now summary.old live result summary.new }
{
    let mut n: usize = 0;
    for i in 0..live {
        let s = summary[i];
        summary[n] = s;
        n += usize::from(is_valid(marks, s as usize));
    }
    n
}

// Takes the slots that are dead now out of numbers and summary.
pub fn strike(marks: &[u8], numbers: &mut [u32], summary: &mut [u32], live: usize)
    requires { (length numbers.old ≡ length marks.now) × (live ≤ length summary.old) }
    ensures { Struck marks.now numbers.old summary.old live numbers.new summary.new }
{
    zero_dead(marks, numbers);
    let n = keep_live(marks, summary, live);
    summary[n..].fill(BLANK);
}
