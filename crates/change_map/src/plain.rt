//! Rows of words, one word after the other.

ghost use Rattle.std.specs.Prelude.{◌≡◌, ◌<◌, ◌^◌, length, sum_by, count_ones, bit_or};
ghost use Rattle.std.specs.Simd.Lanes.{zip2};

/// Sets in each word the bits of another.
pub fn or_plain(into: &mut [u64], from: &[u64])
    requires { length from.now ≡ length into.old }
    ensures { into.new ≡ zip2 bit_or into.old from.now }
{
    for k in 0..into.len() {
        into[k] |= from[k];
    }
}

/// The number of all bits that are set.
pub fn count_plain(words: &[u64]) -> u64
    requires { length words.now < 2 ^ 32 }
    ensures { result ≡ sum_by count_ones words.now }
{
    let mut count = 0;
    for word in words {
        count += u64::from(word.count_ones());
    }
    count
}
