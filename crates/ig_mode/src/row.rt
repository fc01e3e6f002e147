ghost use Rattle.std.specs.Prelude.{◌≡◌, ◌≤◌, ◌<◌, ◌+◌, ◌*◌, ◌/◌, ℕ, length, slice_index, ◌==◌, if◌then◌else◌};
ghost use Rattle.ig_mode.specs.Lanes.{HasLanes};
ghost use Rattle.ig_mode.specs.Mode.{block_mode, half_up, mode_of};

use crate::mode::{edge_of, mode4};
use std::simd::prelude::*;

/// Four labels from this place on.
#[inline(always)]
fn load(row: &[u64], at: usize) -> u64x4
    requires { at + 4 ≤ length row.now }
    ensures { HasLanes result (λ k. slice_index row.now (at + k)) }
{
    u64x4::from_slice(&row[at..])
}

/// The first of each pair of eight labels from this place on.
#[inline(always)]
fn evens(row: &[u64], at: usize) -> u64x4
    requires { at + 8 ≤ length row.now }
    ensures { HasLanes result (λ k. slice_index row.now (at + 2 * k)) }
{
    load(row, at).shuffle(load(row, at + 4), [0, 2, 4, 6])
}

/// The second of each pair of eight labels from this place on.
#[inline(always)]
fn odds(row: &[u64], at: usize) -> u64x4
    requires { at + 8 ≤ length row.now }
    ensures { HasLanes result (λ k. slice_index row.now (at + (2 * k + 1))) }
{
    load(row, at).shuffle(load(row, at + 4), [1, 3, 5, 7])
}

/// In each lane `x` where `a` and `b` are the same, else `y`.
#[inline(always)]
fn choose(a: u64x4, b: u64x4, x: u64x4, y: u64x4) -> u64x4
    ensures { HasLanes result (λ k. if slice_index a k == slice_index b k then slice_index x k else slice_index y k) }
{
    a.simd_eq(b).select(x, y)
}

/// The mode of each lane.
#[inline(always)]
fn mode_lanes(a: u64x4, b: u64x4, c: u64x4, d: u64x4) -> u64x4
    ensures { HasLanes result (λ k. mode_of (slice_index a k) (slice_index b k) (slice_index c k) (slice_index d k)) }
{
    choose(a, b, a, choose(a, c, a, choose(b, c, b, d)))
}

/// Writes four labels from this place on.
#[inline(always)]
fn put(labels: u64x4, out: &mut [u64], at: usize)
    requires { at + 4 ≤ length out.old }
    ensures written { (k : ℕ) → k < 4 → slice_index out.new (at + k) ≡ slice_index labels k }
    ensures before { (k : ℕ) → k < at → slice_index out.new k ≡ slice_index out.old k }
{
    labels.copy_to_slice(&mut out[at..]);
}

/// Writes the modes of the first blocks, four at a time.
fn mode_fours(upper: &[u64], lower: &[u64], out: &mut [u64])
    requires same { length lower.now ≡ length upper.now }
    requires half { length out.old ≡ half_up (length upper.now) }
    ensures { (k : ℕ) → k < 4 * (length upper.now / 8) → slice_index out.new k ≡ block_mode (length upper.now) upper.now lower.now k }
{
    for four in 0..upper.len() / 8 {
        let at = 8 * four;
        let modes = mode_lanes(
            evens(upper, at),
            odds(upper, at),
            evens(lower, at),
            odds(lower, at),
        );
        put(modes, out, 4 * four);
    }
}

/// The mode of block `k`, the last column repeated.
fn mode_at(upper: &[u64], lower: &[u64], k: usize) -> u64
    requires same { length lower.now ≡ length upper.now }
    requires within { 2 * k < length upper.now }
    ensures { result ≡ block_mode (length upper.now) upper.now lower.now k }
{
    let left = 2 * k;
    let right = edge_of(upper.len(), left + 1);
    mode4(upper[left], upper[right], lower[left], lower[right])
}

/// Writes the modes of the blocks from this one on.
fn mode_rest(upper: &[u64], lower: &[u64], out: &mut [u64], from: usize)
    requires same { length lower.now ≡ length upper.now }
    requires half { length out.old ≡ half_up (length upper.now) }
    requires begun { (k : ℕ) → k < from → slice_index out.old k ≡ block_mode (length upper.now) upper.now lower.now k }
    ensures { (k : ℕ) → k < length out.new → slice_index out.new k ≡ block_mode (length upper.now) upper.now lower.now k }
{
    for k in from..out.len() {
        out[k] = mode_at(upper, lower, k);
    }
}

/// The modes of the blocks of two rows of one length, the last column repeated where that is odd. `out` has a label for each
/// block: half as many as a row, up.
pub fn mode_row(upper: &[u64], lower: &[u64], out: &mut [u64])
    requires same { length lower.now ≡ length upper.now }
    requires half { length out.old ≡ half_up (length upper.now) }
    ensures length { length out.new ≡ length out.old }
    ensures each { (k : ℕ) → k < length out.new → slice_index out.new k ≡ block_mode (length upper.now) upper.now lower.now k }
{
    mode_fours(upper, lower, out);
    mode_rest(upper, lower, out, upper.len() / 8 * 4);
}
