// A candidate by value, its distance as an f32: the order of candidates, and the quotient of two distances.
ghost use Rattle.std.specs.Prelude.{◌≡◌, ◌≤◌};
ghost use Rattle.candidates.specs.Candidates as Candidates;
ghost use Rattle.candidates.specs.Quotient as Quotient;
ghost use Rattle.vectors.specs.Distance.{f32};
ghost use Rattle.candidates.specs.Quotient.{before_f32};
ghost use Rattle.candidates.specs.Inner.Words.{pair};

// The largest finite f32.
pub const LARGEST: f32 = 3.4028235e38;

// Ordered by distance, then by slot.
#[derive(Clone, Copy, PartialEq, PartialOrd)]
pub struct Candidate {
    pub dist: f32,
    pub id: u32,
}

impl Candidate {
    // The candidate of a slot at a distance, which an f32 holds exactly.
    pub fn new(dist: u32, id: u32) -> Self
        requires { dist ≤ 16777216 }
        ensures { (result.dist ≡ f32 dist) × (result.id ≡ id) }
    {
        Self {
            dist: dist as f32,
            id,
        }
    }

    // Whether it comes before another: its promise says of the derived order what it is of two f32 numbers.
    pub fn before(self, other: Self) -> bool
        ensures { result ≡ before_f32 self.dist self.id other.dist other.id }
    {
        self < other
    }
}

// Whether slot `i` at distance `d` comes before slot `j` at distance `e`.
pub fn comes_before(d: u32, i: u32, e: u32, j: u32) -> bool
    requires { (d ≤ 16777216) × (e ≤ 16777216) }
    ensures { result ≡ Candidates.before (pair d i) (pair e j) }
{
    Candidate::new(d, i).before(Candidate::new(e, j))
}

// One distance over another; the largest finite f32 where the other is zero.
pub fn quotient(own: u32, pair: u32) -> f32
    requires { (own ≤ 16777216) × (pair ≤ 16777216) }
    ensures { result ≡ Quotient.quotient own pair }
{
    if pair == 0 {
        return LARGEST;
    }
    (own as f32) / (pair as f32)
}
