// Selections: which of a list of candidates become the neighbours of a slot.
#![tactic(auto)]

ghost use Rattle.std.specs.Prelude.{◌≡◌, ◌/◌, ◌<◌, ◌≤◌, length};
ghost use Rattle.vectors.specs.Space.{slot_distance};
ghost use Rattle.vectors.specs.Lent.{space_of, HasVector};
ghost use Rattle.candidates.specs.Quotient.{fmax, fmin};
ghost use Rattle.candidates.specs.Inner.Words.{cands, cands_of, Remain};
ghost use Rattle.slots.specs.Store.{is_valid};
ghost use Rattle.prune.specs.Prune.{considered};
ghost use Rattle.prune.specs.Inner.Selecting.{next_threshold, raised_factor, settled, Given, Considered, Selected, Picked, Ready, Pruned};

use distances::Kept;

// How many passes there are at most: `five_passes` shows that alpha is reached by then.
const PASSES: usize = 5;

// The larger of two factors. `f32::max` says less: at a NaN it gives the other one, and of 0.0 and -0.0 it leaves open which.
fn larger(x: f32, y: f32) -> f32
    ensures { result ≡ fmax x y }
{
    if x < y { y } else { x }
}

// The smaller of two factors; `f32::min` says less, likewise.
fn smaller(x: f32, y: f32) -> f32
    ensures { result ≡ fmin x y }
{
    if y < x { y } else { x }
}

// The threshold of the pass that follows one with the threshold `t`.
fn following(t: f32, alpha: f32) -> f32
    ensures { result ≡ next_threshold alpha t }
{
    smaller(t * smaller(alpha, 1.2), alpha)
}

// The factor `f` of slot `x`, whose candidate has the distance `own`, once slot `y` is taken.
fn raised<const N: usize>(
    f: f32,
    alpha: f32,
    own: u32,
    kept: &mut Kept<'_, N>,
    x: u32,
    y: u32,
) -> f32
    requires { (own ≤ 16777216) × HasVector kept.old.space x × HasVector kept.old.space y × (kept.old.space.dim ≤ 256) × (x < 65536) × (y < 65536) }
    ensures { (result ≡ raised_factor alpha own (slot_distance (space_of kept.old.space) x y) f) × (kept.new.space ≡ kept.old.space) }
{
    if f > alpha {
        return f;
    }
    let pair = kept.slot_distance(x, y);
    larger(f, candidates::quotient(own, pair))
}

// What the passes of a selection go over: the first candidates of a list, a factor each, the distances that are kept meanwhile, and where those taken go.
#[derive(Drop)]
struct Selector<'k, 's, 'f, 'l, 'o, const N: usize> {
    alpha: f32,
    kept: &'k mut Kept<'s, N>,
    factors: &'f mut [f32],
    list: &'l [u32],
    out: &'o mut [u32],
    ghost given: { Given kept.now.space list.now (length factors.now) },
}

impl<const N: usize> Selector<'_, '_, '_, '_, '_, N> {
    ghost use Rattle.prune.specs.Lent.{SameSelector};

    // Candidate `i` is taken: its factor becomes the largest, and those after it are raised.
    fn settle(&mut self, i: usize)
        requires { i < length self.old.factors.now }
        ensures { (self.new.factors.now ≡ settled self.old.alpha (slot_distance (space_of self.old.kept.now.space)) (cands self.old.list.now 0 (length self.old.factors.now)) i self.old.factors.now)
            × (self.new.out.now ≡ self.old.out.now) × SameSelector self.old self.new }
    {
        let alpha = self.alpha;
        let list = self.list;
        let factors = &mut *self.factors;
        let kept = &mut *self.kept;
        let n = factors.len();
        let y = candidates::id_at(list, i);
        factors[i] = candidates::LARGEST;
        for j in i + 1..n {
            let own = candidates::dist_at(list, j);
            let x = candidates::id_at(list, j);
            factors[j] = raised(factors[j], alpha, own, kept, x, y);
        }
    }

    // Candidate `i` is taken unless its factor is above the threshold; `m` are taken already. Returns how many are taken.
    fn consider(&mut self, i: usize, m: usize, threshold: f32) -> usize
        requires { (i < length self.old.factors.now) × (m < length self.old.out.now / 2) }
        ensures { Considered self.old.alpha (slot_distance (space_of self.old.kept.now.space)) (cands self.old.list.now 0 (length self.old.factors.now)) threshold i
            self.old.factors.now self.old.out.now m self.new.factors.now self.new.out.now result × SameSelector self.old self.new }
    {
        if self.factors[i] > threshold {
            return m;
        }
        self.settle(i);
        let dist = candidates::dist_at(self.list, i);
        let id = candidates::id_at(self.list, i);
        candidates::put(self.out, m, dist, id);
        m + 1
    }

    // The passes over the candidates. Returns how many are taken: as many as have room at most. Both loops stand here, since they end together, by a label.
    fn select(&mut self) -> usize
        ensures { Selected (length self.old.out.now / 2) self.old.alpha (slot_distance (space_of self.old.kept.now.space)) self.old.factors.now (cands self.old.list.now 0 (length self.old.factors.now)) result self.new.out.now
            × SameSelector self.old self.new }
    {
        let alpha = self.alpha;
        let degree = self.out.len() / 2;
        let n = self.factors.len();
        let mut m: usize = 0;
        let mut threshold: f32 = 1.0;
        'passes: for _ in 0..PASSES {
            for i in 0..n {
                if m == degree {
                    break 'passes;
                }
                m = self.consider(i, m, threshold);
            }
            if threshold >= alpha {
                break;
            }
            threshold = following(threshold, alpha);
        }
        m
    }
}

// Selects from as many candidates of a list as there are factors. A function of its own: with the selector made beside the array of factors it was not proved what
// it leaves in `out` and `kept`.
fn run_passes<const N: usize>(
    alpha: f32,
    kept: &mut Kept<'_, N>,
    factors: &mut [f32],
    list: &[u32],
    out: &mut [u32],
) -> usize
    requires { Given kept.old.space list.now (length factors.old) }
    ensures { Selected (length out.old / 2) alpha (slot_distance (space_of kept.old.space)) factors.old (cands list.now 0 (length factors.old)) result out.new × (kept.new.space ≡ kept.old.space) }
{
    let mut selector = Selector {
        alpha,
        kept,
        factors,
        list,
        out,
    };
    selector.select()
}

// Selects from a list of 750 candidates at most. The factors are an array of this function alone, so that they take the same part of the stack as what `prepare`
// needs before.
fn pick<const N: usize>(alpha: f32, kept: &mut Kept<'_, N>, list: &[u32], out: &mut [u32]) -> usize
    requires { Given kept.old.space list.now (length list.now / 2) × (length list.now / 2 ≤ 750) }
    ensures { Picked (length out.old / 2) alpha (slot_distance (space_of kept.old.space)) (cands_of list.now) result out.new × (kept.new.space ≡ kept.old.space) }
{
    let n = list.len() / 2;
    let mut factors = [0.0f32; 750];
    run_passes(alpha, kept, &mut factors[..n], list, out)
}

// What is selected from: no source, no dead slot, by distance, each slot's first, 750 at most. Returns how many are left, at the front.
fn prepare(marks: &[u8], source: u32, list: &mut [u32]) -> usize
    ensures { Remain list.old (considered (is_valid marks.now) source (cands_of list.old)) result list.new }
{
    let k = candidates::keep_valid(list, marks, source);
    let kept = &mut list[..2 * k];
    candidates::sort_by_distance(kept);
    candidates::keep_first(kept, 750)
}

// Selects the neighbours of slot `source` from a list, which it rearranges, as many as `out` has room for at most. Returns how many they are; they lie at the front
// of `out`. Distances that the table `kept` has are read there.
pub fn prune_scored<const N: usize>(
    alpha: f32,
    kept: &mut Kept<'_, N>,
    marks: &[u8],
    source: u32,
    list: &mut [u32],
    out: &mut [u32],
) -> usize
    requires { Ready kept.old.space.dim kept.old.space.vectors.now marks.now list.old }
    ensures { Pruned (length out.old / 2) alpha (is_valid marks.now) (slot_distance (space_of kept.old.space)) source (cands_of list.old) result out.new × (kept.new.space ≡ kept.old.space) }
{
    let m = prepare(marks, source, list);
    pick(alpha, kept, &list[..2 * m], out)
}
