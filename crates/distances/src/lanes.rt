// The four running sums of a distance, the lanes of a `u32x4`: lane r adds up places r, r + 4, r + 8 and on. Other SIMD vectors hold 16 places, a lane each.
ghost use Rattle.std.specs.Prelude.{◌≡◌, ◌+◌, ◌-◌, ◌*◌, ◌<◌, ◌≤◌, true, length, slice_index};
ghost use Rattle.vectors.specs.Weights.{Ones};
ghost use Rattle.distances.specs.Lanes.{Lanes};
ghost use Rattle.distances.specs.Inner.Sums.{Sides, Summed, HasLanes, difference, term, Most, Woven, pair_terms, lane_terms};

use std::simd::prelude::*;

// The weight of place `i`. Where all are 1 (`ONES`), none is read.
fn weight<const ONES: bool>(weights: &[u8], i: usize) -> u8
    requires { (ONES ≡ true → Ones weights.now) × (i < length weights.now) }
    ensures { result ≡ slice_index weights.now i }
{
    if ONES { 1 } else { weights[i] }
}

// The squared difference of two bytes, times their weight.
fn term<const ONES: bool>(weights: &[u8], a: &[u8], b: &[u8], i: usize) -> u32
    requires { Sides ONES weights.now a.now b.now × (i < length a.now) }
    ensures { result ≡ term weights.now a.now b.now i }
{
    let d = u32::from(a[i].abs_diff(b[i]));
    u32::from(weight::<ONES>(weights, i)) * (d * d)
}

// The weights of 16 places, from `i` on.
fn weights_at<const ONES: bool>(weights: &[u8], i: usize) -> u8x16
    requires { (ONES ≡ true → Ones weights.now) × (i + 16 ≤ length weights.now) }
    ensures { HasLanes 16 result (λ k. slice_index weights.now (i + k)) }
{
    if ONES {
        u8x16::splat(1)
    } else {
        u8x16::from_slice(&weights[i..])
    }
}

// The differences of 16 places, from `i` on.
fn differences(a: &[u8], b: &[u8], i: usize) -> u8x16
    requires { (i + 16 ≤ length a.now) × (length b.now ≡ length a.now) }
    ensures { HasLanes 16 result (λ k. difference a.now b.now (i + k)) }
{
    u8x16::from_slice(&a[i..]).abs_diff(u8x16::from_slice(&b[i..]))
}

// Lanes 0 to 7 of `v` and `w` in turn, then lanes 8 to 15; 16 bits each.
fn woven(v: u8x16, w: u8x16) -> (u16x16, u16x16)
    ensures { Woven v w 0 result.0 × Woven v w 8 result.1 }
{
    let (p, q) = v.interleave(w);
    (p.cast::<u16>(), q.cast::<u16>())
}

// Each lane of `x` times the one of `d`, summed in fours: pairs 0 and 4 of neighbours in lane 0, 1 and 5 in lane 1, and so on. The compiler makes one
// instruction (`pmaddwd`) of the products of a pair and their sum.
fn pairs(x: u16x16, d: u16x16) -> u32x4
    requires { Most 1020 x × Most 255 d }
    ensures { HasLanes 4 result (pair_terms x d) }
{
    let even = x.swizzle([0, 2, 4, 6, 8, 10, 12, 14]).cast::<u32>()
        * d.swizzle([0, 2, 4, 6, 8, 10, 12, 14]).cast::<u32>();
    let odd = x.swizzle([1, 3, 5, 7, 9, 11, 13, 15]).cast::<u32>()
        * d.swizzle([1, 3, 5, 7, 9, 11, 13, 15]).cast::<u32>();
    let both = even + odd;
    both.extract::<0, 4>() + both.extract::<4, 4>()
}

// Each difference times its weight. No product has its highest bit set; the mask says so to the compiler.
fn weighted(w: u16x16, d: u16x16) -> u16x16
    requires { Most 4 w × Most 255 d }
    ensures { HasLanes 16 result (λ k. slice_index w k * slice_index d k) }
{
    (w * d) & u16x16::splat(32767)
}

// The four sums of 32 places: the squares of the differences `d`, then `e`, times their weights `v` and `w`. Woven, the two squares that one lane adds next
// are neighbours. Where all weights are 1 nothing is multiplied by them: with such products the compiler finds no pairs, and 256 bytes took half as long again.
fn block<const ONES: bool>(v: u8x16, w: u8x16, d: u8x16, e: u8x16) -> u32x4
    requires { (Most 4 v × Most 4 w) × (ONES ≡ true → Ones v × Ones w) }
    ensures { HasLanes 4 result (λ r. lane_terms v d r + lane_terms w e r) }
{
    let (p, q) = woven(d, e);
    if ONES {
        return pairs(p, p) + pairs(q, q);
    }
    let (v, w) = woven(v, w);
    pairs(weighted(v, p), p) + pairs(weighted(w, q), q)
}

// The sums of 32 terms, from place `i` on.
fn thirty_two<const ONES: bool>(weights: &[u8], a: &[u8], b: &[u8], i: usize) -> u32x4
    requires { Sides ONES weights.now a.now b.now × (i + 32 ≤ length a.now) }
    ensures { Summed weights.now a.now b.now i 32 result }
{
    block::<ONES>(
        weights_at::<ONES>(weights, i),
        weights_at::<ONES>(weights, i + 16),
        differences(a, b, i),
        differences(a, b, i + 16),
    )
}

// The sums of 16 terms, from place `i` on.
fn sixteen<const ONES: bool>(weights: &[u8], a: &[u8], b: &[u8], i: usize) -> u32x4
    requires { Sides ONES weights.now a.now b.now × (i + 16 ≤ length a.now) }
    ensures { Summed weights.now a.now b.now i 16 result }
{
    let w = weights_at::<ONES>(weights, i);
    block::<ONES>(w, w, differences(a, b, i), u8x16::splat(0))
}

// The sums of four terms, from place `i` on: one each.
fn four<const ONES: bool>(weights: &[u8], a: &[u8], b: &[u8], i: usize) -> u32x4
    requires { Sides ONES weights.now a.now b.now × (i + 4 ≤ length a.now) }
    ensures { Summed weights.now a.now b.now i 4 result }
{
    u32x4::from_array([
        term::<ONES>(weights, a, b, i),
        term::<ONES>(weights, a, b, i + 1),
        term::<ONES>(weights, a, b, i + 2),
        term::<ONES>(weights, a, b, i + 3),
    ])
}

// The sums of the last one to three terms, from place `i` on; 0 for a lane that has none.
fn last<const ONES: bool>(weights: &[u8], a: &[u8], b: &[u8], i: usize) -> u32x4
    requires { Sides ONES weights.now a.now b.now × (i < length a.now) × (length a.now < i + 4) }
    ensures { Summed weights.now a.now b.now i (length a.now - i) result }
{
    let left = a.len() - i;
    let first = term::<ONES>(weights, a, b, i);
    let second = if 2 <= left {
        term::<ONES>(weights, a, b, i + 1)
    } else {
        0
    };
    let third = if 3 <= left {
        term::<ONES>(weights, a, b, i + 2)
    } else {
        0
    };
    u32x4::from_array([first, second, third, 0])
}

// The sums of the terms from place `from` on, taken four by four.
fn fours<const ONES: bool>(weights: &[u8], a: &[u8], b: &[u8], from: usize) -> u32x4
    requires { Sides ONES weights.now a.now b.now × (from ≤ length a.now) }
    ensures { Summed weights.now a.now b.now from (length a.now - from) result }
{
    let mut sums = u32x4::splat(0);
    let mut i = from;
    while 4 <= a.len() - i {
        sums += four::<ONES>(weights, a, b, i);
        i += 4;
    }
    if i < a.len() {
        sums += last::<ONES>(weights, a, b, i);
    }
    sums
}

// The four running sums of all terms.
pub fn lane_sums<const ONES: bool>(weights: &[u8], a: &[u8], b: &[u8]) -> u32x4
    requires { Sides ONES weights.now a.now b.now }
    ensures { Lanes weights.now a.now b.now result }
{
    let mut sums = u32x4::splat(0);
    let mut i: usize = 0;
    while 32 <= a.len() - i {
        sums += thirty_two::<ONES>(weights, a, b, i);
        i += 32;
    }
    if 16 <= a.len() - i {
        sums += sixteen::<ONES>(weights, a, b, i);
        i += 16;
    }
    sums + fours::<ONES>(weights, a, b, i)
}
