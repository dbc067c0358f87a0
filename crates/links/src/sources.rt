// Repair links source by source, each applied to the stored row of its source at once: those of one source after the other.
ghost use Rattle.std.specs.Prelude.{[], ◌∷◌, ◌<◌, ◌≤◌, length};
ghost use Rattle.candidates.specs.Candidates.{ids};
ghost use Rattle.candidates.specs.Inner.Words.{cands_of};
ghost use Rattle.repair.proofs.Sources.{both_ways};
ghost use Rattle.links.specs.Inner.Linking.{link, from, from_each, pairs_of, link_words, Pairs, Linked};

use super::link::apply_link;
use super::span::Pair;
use candidates::id_at;
use distances::KEPT;
use row::Pruner;

// Applies the link from `x` to `p` where `x` is the source `s`.
fn apply_from(
    pruner: &mut Pruner<'_, '_, '_, '_, '_, KEPT>,
    s: u32,
    x: u32,
    p: u32,
    words: &mut [u32],
)
    requires { (x < length pruner.old.marks.now) × (p < length pruner.old.marks.now) × (link_words pruner.old.rows.now.degree ≤ length words.old) }
    ensures { Linked pruner.old (from s (link x p ∷ [])) pruner.new }
{
    if x != s {
        return;
    }
    apply_link(pruner, x, p, words);
}

// Applies those links of a pair whose source is `s`.
fn apply_pair(pruner: &mut Pruner<'_, '_, '_, '_, '_, KEPT>, s: u32, pair: Pair, words: &mut [u32])
    requires { (pair.slot < length pruner.old.marks.now) × (pair.parent < length pruner.old.marks.now) × (link_words pruner.old.rows.now.degree ≤ length words.old) }
    ensures { Linked pruner.old (from s (both_ways pair.slot pair.parent)) pruner.new }
{
    apply_from(pruner, s, pair.slot, pair.parent, words);
    apply_from(pruner, s, pair.parent, pair.slot, words);
}

// Applies those links of the pairs whose source is `s`, in their order.
fn apply_source(
    pruner: &mut Pruner<'_, '_, '_, '_, '_, KEPT>,
    s: u32,
    pairs: &[Pair],
    words: &mut [u32],
)
    requires { Pairs (length pruner.old.marks.now) pairs.now × (link_words pruner.old.rows.now.degree ≤ length words.old) }
    ensures { Linked pruner.old (from s (pairs_of pairs.now)) pruner.new }
{
    for &pair in pairs {
        apply_pair(pruner, s, pair, words);
    }
}

// Applies the links of pairs, source by source; the sources are the slots of a list. A source's links prune nearly the same row, so that most distances are
// kept.
pub fn apply_sources(
    pruner: &mut Pruner<'_, '_, '_, '_, '_, KEPT>,
    pairs: &[Pair],
    list: &[u32],
    words: &mut [u32],
)
    requires { Pairs (length pruner.old.marks.now) pairs.now × (link_words pruner.old.rows.now.degree ≤ length words.old) }
    ensures { Linked pruner.old (from_each (pairs_of pairs.now) (ids (cands_of list.now))) pruner.new }
{
    for i in 0..list.len() / 2 {
        let s = id_at(list, i);
        apply_source(pruner, s, pairs, words);
    }
}
