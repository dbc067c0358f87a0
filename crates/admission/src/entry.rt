// The entry that is left when some slots are to be deleted.
ghost use Rattle.std.specs.Prelude.{◌≤◌, length};
ghost use Rattle.admission.specs.Inner.Pools.{Entered};

use landmarks::stays;

// The entry if it stays when `ids` are deleted, else the lowest slot that does.
pub fn residual_entry(marks: &[u8], ids: &[u32], entry: u32) -> Option<u32>
    requires { length marks.now ≤ 65536 }
    ensures { Entered marks.now ids.now entry result }
{
    if stays(marks, ids, entry) {
        return Some(entry);
    }
    (0..marks.len() as u32).find(|&id| stays(marks, ids, id))
}
