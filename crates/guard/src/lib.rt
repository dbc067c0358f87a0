// The definition of the routability guard: landmarks, trial walks and the report; and its settings. The rest of its code is in crates `landmarks` and `admission`.
#![tactic(auto)]

ghost use Rattle.std.specs.Prelude.{◌≡◌};

// The settings of a guard: how many landmarks a report checks and how many times as many the pool has, how many slots are sampled, and the beam of trial walks.
// They are words where an index holds them, and sizes where a guard acts.
#[derive(Clone, Copy)]
pub struct Config<N = u32> {
    pub count: N,
    pub multiplier: N,
    pub sample: N,
    pub beam: N,
}

impl From<Config> for Config<usize> {
    ghost from_gives = { λ words sizes. (sizes.count ≡ words.count) × (sizes.multiplier ≡ words.multiplier) × (sizes.sample ≡ words.sample) × (sizes.beam ≡ words.beam) };

    fn from(config: Config) -> Config<usize> {
        Config {
            count: config.count as usize,
            multiplier: config.multiplier as usize,
            sample: config.sample as usize,
            beam: config.beam as usize,
        }
    }
}
