// The weights that vectors are measured with.
ghost use Rattle.std.specs.Prelude.{◌≡◌, true};
ghost use Rattle.vectors.specs.Weights.{Weighing, Ones};

// The weights of an index, one for each byte of a vector, and whether all are 1, which is found out once, and not for each distance.
#[derive(Clone, Copy)]
pub struct Weights<'a> {
    pub each: &'a [u8],
    pub ones: bool,
    pub ghost weighing: { Weighing each.now },
    pub ghost are_ones: { ones ≡ true → Ones each.now },
}

impl<'a> Weights<'a> {
    // Weights, once they are known to be within their limits.
    pub fn new(each: &'a [u8]) -> Self
        requires { Weighing each.now }
        ensures { result.each ≡ each.entry }
    {
        let mut ones = true;
        for weight in each {
            ones &= *weight == 1;
        }
        Weights { each, ones }
    }
}
