// Where a chunk keeps its words, in the region `work` of the scratch.
ghost use Rattle.std.specs.Prelude.{◌≤◌};
ghost use Rattle.insertion.specs.Inner.Layout.{Parts};

use slots::scratch::MARKS;

// The candidates of the plans, and for each its source and the next one of its slot; the plans' ends; a list of candidates, and a selection from it.
#[derive(Clone, Copy)]
pub struct Layout {
    pub plans: usize,
    pub sources: usize,
    pub nexts: usize,
    pub ends: usize,
    pub list: usize,
    pub chosen: usize,
}

// The slots of a chunk, and their plans: where they lie, and how many candidates they have.
#[derive(Clone, Copy)]
pub struct Plans<'a> {
    pub slots: &'a [u32],
    pub at: Layout,
    pub n: u32,
}

// The layout for `capacity` slots and rows of `degree`.
pub fn lay_out(capacity: usize, degree: usize) -> Layout
    requires { (capacity ≤ 65536) × (degree ≤ 64) }
    ensures { Parts capacity degree result }
{
    let plans = MARKS + capacity;
    let sources = plans + 512 * degree;
    let nexts = sources + 256 * degree;
    let ends = nexts + 256 * degree;
    let list = ends + 256;
    let chosen = list + 514 * degree;
    Layout {
        plans,
        sources,
        nexts,
        ends,
        list,
        chosen,
    }
}
