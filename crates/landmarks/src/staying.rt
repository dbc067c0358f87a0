// Which slots stay when some are to be deleted.
ghost use Rattle.std.specs.Prelude.{◌≡◌};
ghost use Rattle.landmarks.specs.Inner.Samples.{remains};

use slots::marks::is_valid;

// Whether slot `id` is live and none of `ids`.
pub fn stays(marks: &[u8], ids: &[u32], id: u32) -> bool
    ensures { result ≡ remains marks.now ids.now id }
{
    is_valid(marks, id as usize) && !ids.contains(&id)
}
