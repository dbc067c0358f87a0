// Numbers read and written.
ghost use Rattle.std.specs.Prelude.{map, ◌≡◌, ◌≤◌, ◌<◌, length, take};
ghost use Rattle.lists.specs.Lists.{All, put_front};
ghost use Rattle.slots.specs.Store.{is_valid};
ghost use Rattle.numbers.specs.Numbers.{number_of, write_numbers, live_numbers};

// Fills `out` with the numbers of the first slots.
pub fn copy_numbers(numbers: &[u32], slots: &[u32], out: &mut [u32])
    requires { length out.old ≤ length slots.now }
    ensures { out.new ≡ map (number_of numbers.now) (take (length out.old) slots.now) }
{
    for (i, number) in out.iter_mut().enumerate() {
        *number = numbers.get(slots[i] as usize).copied().unwrap_or(0);
    }
}

// Gives each of the first slots its number.
pub fn write_numbers(numbers: &mut [u32], slots: &[u32], given: &[u32])
    requires { (length given.now ≤ length slots.now) × All (λ s. s < length numbers.old) (take (length given.now) slots.now) }
    ensures { numbers.new ≡ write_numbers (take (length given.now) slots.now) given.now numbers.old }
{
    for (i, number) in given.iter().enumerate() {
        numbers[slots[i] as usize] = *number;
    }
}

// Writes 0 for each dead slot: every number is written, so that the compiler takes several at a time.
pub fn zero_dead(marks: &[u8], numbers: &mut [u32])
    requires { length numbers.old ≡ length marks.now }
    ensures { numbers.new ≡ live_numbers (is_valid marks.now) (length marks.now) numbers.old }
{
    for (s, number) in numbers.iter_mut().enumerate() {
        *number = if marks[s] == 0 { 0 } else { *number };
    }
}
