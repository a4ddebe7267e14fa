//! Sets of bits in words of 64.

ghost use Rattle.std.specs.Prelude.{◌≡◌, ℕ, ◌+◌, ◌*◌, ◌/◌, ◌≤◌, ◌<◌, ◌^◌, ◌||◌, nat_lt, length, replicate, false, None, IfSome};
ghost use Rattle.change_map.specs.Sets.{size};
ghost use Rattle.change_map.specs.Words.{has_bit, set_in, IsNextBit};

use crate::lanes::{count_lanes, or_lanes, past_clear};

/// The bits of a word.
const BITS: u32 = 64;

/// Clears every bit.
pub fn clear_words(words: &mut [u64])
    ensures { words.new ≡ replicate (length words.old) 0 }
{
    words.fill(0);
}

/// Sets the first bits, so many, and clears those after them.
pub fn set_first(words: &mut [u64], bits: u32)
    requires { length words.old ≡ (bits + 63) / 64 }
    ensures len { length words.new ≡ length words.old }
    ensures bits { (x : ℕ) → has_bit words.new x ≡ nat_lt x bits }
{
    words.fill(u64::MAX);
    let over = bits % BITS;
    if over != 0 {
        words[(bits / BITS) as usize] = (1u64 << over) - 1;
    }
}

/// Sets each bit that others have.
pub fn or_words(into: &mut [u64], from: &[u64])
    requires { length from.now ≡ length into.old }
    ensures len { length into.new ≡ length into.old }
    ensures bits { (x : ℕ) → has_bit into.new x ≡ (has_bit into.old x || has_bit from.now x) }
{
    or_lanes(into, from);
}

/// How many bits are set.
pub fn count_words(words: &[u64]) -> u64
    requires { length words.now < 2 ^ 32 }
    ensures { result ≡ size (set_in (64 * length words.now) words.now) }
{
    count_lanes(words)
}

/// The first bit from a place on that is set.
pub fn next_bit(words: &[u64], from: u32) -> Option<u32>
    requires few { length words.now ≤ 2 ^ 26 }
    ensures none { result ≡ None → (x : ℕ) → from ≤ x → has_bit words.now x ≡ false }
    ensures some { IfSome result (IsNextBit words.now from) }
{
    let first = (from / BITS) as usize;
    if first >= words.len() {
        return None;
    }
    let rest = words[first] >> (from % BITS);
    if rest != 0 {
        return Some(from + rest.trailing_zeros());
    }
    first_bit(words, first + 1)
}

/// The first bit from a word on that is set. Words without a bit are passed over eight at a time.
fn first_bit(words: &[u64], from: usize) -> Option<u32>
    requires few { length words.now ≤ 2 ^ 26 }
    requires from { from ≤ length words.now }
    ensures none { result ≡ None → (x : ℕ) → 64 * from ≤ x → has_bit words.now x ≡ false }
    ensures some { IfSome result (IsNextBit words.now (64 * from)) }
{
    for k in past_clear(words, from)..words.len() {
        let word = words[k];
        if word != 0 {
            return Some(k as u32 * BITS + word.trailing_zeros());
        }
    }
    None
}
