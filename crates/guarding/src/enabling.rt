// Enabling the guard.
ghost use Rattle.std.specs.Prelude.{false, ◌≡◌, max, length};
ghost use Rattle.vectors.specs.Lent.{measure_of};
ghost use Rattle.guard.specs.Guard.{normalized};
ghost use Rattle.guard.specs.Lent.{config_of};
ghost use Rattle.admission.specs.Inner.Pools.{Poolable, Pooled};
ghost use Rattle.index.specs.Lent.{slices_of, enable_slices_of, SameEnableSlices};
ghost use Rattle.index.specs.Inner.Deciding.{Decided};
ghost use Rattle.guarding.specs.Guarding.{Enables};
ghost use Rattle.guarding.specs.Inner.Testing.{enable_tests, guarded_index};

use super::Enabled;
use super::statuses::status_of;
use admission::{landmark_pool, residual_entry};
use guard::Config;
use index::refusals::{check_index, config_over, scratch_short};
use index::{EnableSlices, Guard, Index, Refusal, Slices};
use vectors::Space;

// The settings as they act, a 0 as 1.
#[tactic(auto, unfolding(guard::specs::Guard::normalized))]
fn normalized(config: Config) -> Config
    ensures { config_of result ≡ normalized (config_of config) }
{
    Config {
        count: config.count.max(1),
        multiplier: config.multiplier.max(1),
        sample: config.sample.max(1),
        beam: config.beam.max(1),
    }
}

// Whether one of rows 1, 2, 3, 16, 6, 7, 8, 12 and 13 turns enabling back: the first; the live count decides 12 and 13.
fn check_enable(
    index: Index,
    slices: &Slices<'_, '_>,
    config: Config,
    scratch: usize,
) -> Result<(), Refusal>
    ensures { Decided index (slices_of slices.now) false (enable_tests index (config_of config) scratch) result }
{
    check_index(index, slices, false)?;
    if config_over(config) {
        return Err(Refusal::Limits);
    }
    if scratch_short(index.capacity, scratch) {
        return Err(Refusal::Scratch);
    }
    if index.live == 0 {
        return Err(Refusal::NoneLive);
    }
    if index.live == 1 {
        return Err(Refusal::NoLandmark);
    }
    Ok(())
}

// The landmark pool, written to the front of its slice. Returns its length.
fn choose_pool(
    space: &Space<'_>,
    marks: &[u8],
    start: u32,
    config: Config,
    pool: &mut [u32],
    scratch: &mut [u32],
) -> usize
    requires { Poolable (measure_of space.now.weights) space.now.dim space.now.vectors.now marks.now start config.count config.multiplier config.sample pool.old scratch.old }
    ensures { Pooled (measure_of space.now.weights) space.now.dim space.now.vectors.now marks.now start config.count config.multiplier config.sample pool.old pool.new result }
{
    let settings = Config::<usize>::from(config);
    landmark_pool(space, marks, start, settings, pool, scratch)
}

// An index whose guard is on, with a pool of `n` landmarks.
fn with_guard(index: Index, config: Config, n: u32) -> Index
    ensures { result ≡ guarded_index index config n }
{
    Index {
        guard: Some(Guard { config, pool: n }),
        ..index
    }
}

// Enables the guard, which may be on already: its landmarks are chosen anew.
pub fn enable_guard(
    index: Index,
    slices: &mut EnableSlices<'_>,
    config: Config,
    scratch: &mut [u32],
) -> Result<Enabled, Refusal>
    ensures { Enables index (enable_slices_of slices.old) (config_of config) scratch.old (enable_slices_of slices.new) scratch.new result × SameEnableSlices slices.old slices.new }
{
    check_enable(index, &slices.read(), config, scratch.len())?;
    let config = normalized(config);
    let start = residual_entry(slices.marks, &[], index.entry).unwrap_or(index.entry);
    let space = index::space(index, slices.vectors, slices.weights);
    let pool = &mut *slices.pool;
    let n = choose_pool(&space, slices.marks, start, config, pool, scratch);
    let new = with_guard(index, config, n as u32);
    let status = status_of(new.guard, &slices.read());
    Ok(Enabled { index: new, status })
}
