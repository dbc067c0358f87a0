// The sample that landmarks are chosen from, as a list of candidates in words of the scratch.
ghost use Rattle.std.specs.Prelude.{ℕ, Bool, ◌≡◌, ◌+◌, ◌*◌, ◌<◌, ◌≤◌, ◌&&◌, length};
ghost use Rattle.landmarks.specs.Inner.Samples.{free_of, stride_of, sample_words, Sampled, Taken};

use super::staying::stays;
use candidates::put;

// Greater than any distance.
const FAR: u32 = 4294967295;

// What a sample is taken of: the slots that stay when `ids` are deleted and are no reference, neither `entry` nor one of `kept`.
#[derive(Clone, Copy)]
pub struct Free<'a> {
    pub marks: &'a [u8],
    pub ids: &'a [u32],
    pub entry: u32,
    pub kept: &'a [u32],
}

impl Free<'_> {
    // Whether slot `id` is one of them.
    fn has(&self, id: u32) -> bool
        ensures { result ≡ free_of self.now id }
    {
        stays(self.marks, self.ids, id) && id != self.entry && !self.kept.contains(&id)
    }
}

// Writes the free slots that `takes` holds of, rising, as candidates. Returns how many they are.
fn sample_slots<F>(free: &Free<'_>, takes: F, words: &mut [u32]) -> usize
where
    F: Fn(usize) -> bool,
    requires callable { F.IsAlwaysCallable takes }
    requires room { (length free.now.marks.now ≤ 65536) × (2 * length free.now.marks.now ≤ length words.old) }
    ensures { (p : ℕ → Bool) → ((s : ℕ) (r : Bool) → s < 65536 → F.post takes s r → r ≡ p s) → Sampled (λ s. p s && free_of free.now s) (length free.now.marks.now) words.old words.new result }
{
    let mut m: usize = 0;
    for s in 0..free.marks.len() {
        if takes(s) && free.has(s as u32) {
            put(words, m, FAR, s as u32);
            m += 1;
        }
    }
    m
}

// The sample: the free slots of the stride, one of each so many that `sample` are taken of all; if these are fewer than wanted, the others follow. Returns
// how many candidates there are.
pub fn take_sample(free: &Free<'_>, wanted: usize, sample: usize, words: &mut [u32]) -> usize
    requires { (length free.now.marks.now ≤ 65536) × (0 < sample) × (wanted ≤ 1024) × (sample_words (length free.now.marks.now) ≤ length words.old) }
    ensures { Taken (free_of free.now) (length free.now.marks.now) (stride_of (length free.now.marks.now) sample) wanted words.old words.new result }
{
    let stride = (free.marks.len() / sample).max(1);
    let n = sample_slots(free, |s| s % stride == 0, words);
    if n < wanted {
        return n + sample_slots(free, |s| s % stride != 0, &mut words[2 * n..]);
    }
    n
}
