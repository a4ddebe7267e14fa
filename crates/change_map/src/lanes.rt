//! Rows of words, eight at a time. Each call gives what its plain one gives.

ghost use Rattle.std.specs.Prelude.{◌≡◌, ℕ, ◌≤◌, ◌<◌, ◌^◌, length, get_or, sum_by, count_ones, bit_or};
ghost use Rattle.std.specs.Simd.Lanes.{zip2};

use crate::plain::{count_plain, or_plain};
use std::simd::prelude::*;

/// The words of a vector.
const LANES: usize = 8;

/// Sets in each word the bits of another.
pub fn or_lanes(into: &mut [u64], from: &[u64])
    requires { length from.now ≡ length into.old }
    ensures { into.new ≡ zip2 bit_or into.old from.now }
{
    let whole = into.len() / LANES;
    for k in 0..whole {
        let ours = u64x8::from_slice(&into[k * LANES..]);
        let theirs = u64x8::from_slice(&from[k * LANES..]);
        (ours | theirs).copy_to_slice(&mut into[k * LANES..]);
    }
    or_plain(&mut into[whole * LANES..], &from[whole * LANES..]);
}

/// The number of all bits that are set.
pub fn count_lanes(words: &[u64]) -> u64
    requires { length words.now < 2 ^ 32 }
    ensures { result ≡ sum_by count_ones words.now }
{
    let whole = words.len() / LANES;
    let mut counts = u64x8::splat(0);
    for k in 0..whole {
        counts = counts.strict_add(u64x8::from_slice(&words[k * LANES..]).count_ones());
    }
    counts.strict_reduce_sum() + count_plain(&words[whole * LANES..])
}

/// A word from one on, such that all words from there to it are 0.
pub fn past_clear(words: &[u64], from: usize) -> usize
    requires { from ≤ length words.now }
    ensures later { from ≤ result }
    ensures clear { (k : ℕ) → from ≤ k → k < result → get_or words.now k 0 ≡ 0 }
{
    let whole = (words.len() - from) / LANES;
    for k in 0..whole {
        let next = from + k * LANES;
        let set = u64x8::from_slice(&words[next..]).simd_ne(u64x8::splat(0));
        if set.to_bitmask() != 0 {
            return next;
        }
    }
    from + whole * LANES
}
