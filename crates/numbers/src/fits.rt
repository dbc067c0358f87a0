// The test of row 6: numbers, marks and summary belong together.
ghost use Rattle.std.specs.Prelude.{not, ◌≡◌, ◌≤◌, length};
ghost use Rattle.lists.specs.Lists.{range};
ghost use Rattle.slots.specs.Store.{is_valid};
ghost use Rattle.numbers.specs.Numbers.{numbers_fit, rising, all_blank, labels_ok};
ghost use Rattle.numbers.specs.Inner.Fits.{all_fit};

use slots::rows::BLANK;

// Whether a number of a block does not fit its slot's mark: with no exit, so that the compiler takes 16 at a time.
fn block_misfits(marks: &[u8], numbers: &[u32]) -> bool
    ensures { result ≡ not (all_fit marks.now numbers.now) }
{
    let mut bad = false;
    for (mark, number) in marks.iter().zip(numbers) {
        bad |= (*mark == 0) != (*number == 0);
    }
    bad
}

// Whether a slot is live with number 0, or dead with another.
fn numbers_misfit(marks: &[u8], numbers: &[u32]) -> bool
    requires { length numbers.now ≡ length marks.now }
    ensures { result ≡ not (numbers_fit (is_valid marks.now) numbers.now (range 0 (length marks.now))) }
{
    for (some_marks, some_numbers) in marks.chunks(128).zip(numbers.chunks(128)) {
        if block_misfits(some_marks, some_numbers) {
            return true;
        }
    }
    false
}

// Whether one of some words names no slot, or one whose number is not above the one before it.
pub fn falls(numbers: &[u32], slots: &[u32]) -> bool
    ensures { result ≡ not (rising (length numbers.now) numbers.now 0 slots.now) }
{
    let mut low: u32 = 0;
    for s in slots {
        let number = numbers.get(*s as usize).copied().unwrap_or(0);
        if number <= low {
            return true;
        }
        low = number;
    }
    false
}

// Whether one of some words is not blank.
fn holds_slot(words: &[u32]) -> bool
    ensures { result ≡ not (all_blank words.now) }
{
    words.iter().any(|s| *s != BLANK)
}

// Whether numbers and summary break a rule, where `live` slots are live: a number that the index says, and no length of a slice.
pub fn labels_bad(marks: &[u8], numbers: &[u32], summary: &[u32], live: usize) -> bool
    requires { (length numbers.now ≡ length marks.now) × (length summary.now ≡ length marks.now) × (live ≤ length marks.now) }
    ensures { result ≡ not (labels_ok (is_valid marks.now) (length marks.now) live numbers.now summary.now) }
{
    numbers_misfit(marks, numbers)
        || falls(numbers, &summary[..live])
        || holds_slot(&summary[live..])
}
