// A repair link, applied to the stored row of its source.
ghost use Rattle.std.specs.Prelude.{[], ◌∷◌, ◌+◌, ◌*◌, ◌<◌, ◌≤◌, length};
ghost use Rattle.vectors.specs.Lent.{measure_of, HasVector};
ghost use Rattle.links.specs.Inner.Linking.{link, link_words, Joined, Linked};

use candidates::{has_id, id_at, put};
use distances::{KEPT, slot_distance};
use row::{Pruner, live_scored};
use vectors::Space;

// Adds the target `t`, with its distance to slot `s`, to the first `n` candidates of a list, unless one of them has it. Returns how many they are then. The list
// has room behind the `n` for one more.
fn add_target(space: &Space<'_>, s: u32, t: u32, list: &mut [u32], n: usize) -> usize
    requires { HasVector space.now s × HasVector space.now t × (space.now.dim ≤ 256) × (2 * n + 2 ≤ length list.old) }
    ensures { Joined (measure_of space.now.weights) space.now.dim space.now.vectors.now s t list.old n result list.new }
{
    let dist = slot_distance(space, s as usize, t as usize);
    if has_id(&list[..2 * n], t) {
        return n;
    }
    put(list, n, dist, t);
    n + 1
}

// Applies a link: the stored row of `source` takes `target`, where it has it not, and is pruned. The words are for the candidates and the selection from them.
// `InsertAndPrune` in the Rust.
pub fn apply_link(
    pruner: &mut Pruner<'_, '_, '_, '_, '_, KEPT>,
    source: u32,
    target: u32,
    words: &mut [u32],
)
    requires { (source < length pruner.old.marks.now) × (target < length pruner.old.marks.now) × (link_words pruner.old.rows.now.degree ≤ length words.old) }
    ensures { Linked pruner.old (link source target ∷ []) pruner.new }
{
    let space = pruner.kept.space;
    let graph = pruner.graph();
    let (list, out) = words.split_at_mut(2 * pruner.rows.degree + 2);
    let n = live_scored(&graph, source, list);
    let m = add_target(&space, source, target, list, n);
    pruner.write_pruned(source, &mut list[..2 * m], out);
}
