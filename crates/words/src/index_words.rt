// An index in twelve words. Its functions are no `From`: both types of each are another crate's or the language's.
ghost use Rattle.std.specs.Prelude.{not, ◌≡◌, T};
ghost use Rattle.std.specs.Float.Ieee.{is_nan};
ghost use Rattle.words.specs.IndexWords.{alpha_of, guard_of, index_of, words_of};

use guard::Config;
use index::{Guard, Index};

// The alpha of its bits; a NaN's bits are read as 0.0. They are tested before they are a number, not by `is_nan` after: Rattle gives bits of a NaN no meaning.
fn alpha_from(bits: u32) -> f32
    ensures { result ≡ alpha_of bits }
{
    if 0x7f80_0000 < bits % 0x8000_0000 {
        return 0.0;
    }
    f32::from_bits(bits)
}

// The guard that words hold; none where it is off.
#[tactic(auto, unfolding(crate::specs::IndexWords::guard_of))]
fn guard_from(words: &[u32; 12]) -> Option<Guard>
    ensures { result ≡ guard_of words.now }
{
    if words[6] == 0 {
        return None;
    }
    let config = Config {
        count: words[7],
        multiplier: words[8],
        sample: words[9],
        beam: words[10],
    };
    let pool = words[11];
    Some(Guard { config, pool })
}

// The index that words hold.
#[tactic(auto, unfolding(crate::specs::IndexWords::index_of))]
pub fn index_from(words: &[u32; 12]) -> Index
    ensures { result ≡ index_of words.now }
{
    let alpha = alpha_from(words[3]);
    let guard = guard_from(words);
    Index {
        dim: words[0],
        capacity: words[1],
        degree: words[2],
        alpha,
        entry: words[4],
        live: words[5],
        guard,
    }
}

// What the words of a guard that is off hold in place of one.
const OFF: Guard = Guard {
    config: Config {
        count: 0,
        multiplier: 0,
        sample: 0,
        beam: 0,
    },
    pool: 0,
};

// The words that an index is written as. That alpha is no NaN is asked here and of the functions that write an answer's index: the words could not hold a NaN.
// It is no field of `Index`, which may have any alpha: row 2 turns a NaN back.
pub fn words_from(index: Index) -> [u32; 12]
    requires { T (not (is_nan index.alpha)) }
    ensures { result ≡ words_of index }
{
    let guard = index.guard;
    let on = u32::from(guard.is_some());
    let g = guard.unwrap_or(OFF);
    [
        index.dim,
        index.capacity,
        index.degree,
        index.alpha.to_bits(),
        index.entry,
        index.live,
        on,
        g.config.count,
        g.config.multiplier,
        g.config.sample,
        g.config.beam,
        g.pool,
    ]
}
