// The status of the guard.
ghost use Rattle.std.specs.Prelude.{false, ◌≡◌, length};
ghost use Rattle.slots.specs.Sizes.{limits};
ghost use Rattle.calls.specs.Refusals.{guard_fault};
ghost use Rattle.index.specs.Index.{guard_of};
ghost use Rattle.index.specs.Lent.{slices_of};
ghost use Rattle.guarding.specs.Guarding.{Stands};
ghost use Rattle.guarding.specs.Inner.Testing.{Stood};

use super::Status;
use admission::live_landmarks;
use index::refusals::check_index;
use index::{Guard, Index, Refusal, Slices};

// The status of a guard without a fault.
pub fn status_of(guard: Option<Guard>, slices: &Slices<'_, '_>) -> Status
    requires { (guard_fault limits (guard_of guard) ≡ false) × (length slices.now.pool.now ≡ limits.pool) }
    ensures { Stood (guard_of guard) slices.now.marks.now slices.now.pool.now result }
{
    let Some(g) = guard else {
        return Status::default();
    };
    let live = live_landmarks(slices.marks, &slices.pool[..g.pool as usize]);
    Status {
        enabled: true,
        pool: g.pool,
        live,
        count: g.config.count,
        beam: g.config.beam,
    }
}

// The guard's status.
pub fn guard_status(index: Index, slices: &Slices<'_, '_>) -> Result<Status, Refusal>
    ensures { Stands index (slices_of slices.now) result }
{
    check_index(index, slices, false)?;
    Ok(status_of(index.guard, slices))
}
