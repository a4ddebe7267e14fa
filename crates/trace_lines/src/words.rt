//! The words of a line: numbers, names and bytes.

ghost use Rattle.std.specs.Prelude.{◌≡◌, ◌≤◌, None, Some, IfOk, IfSome, MatchOption};
ghost use Rattle.trace_lines.specs.Lines.{number_of, stamp_in as stamp_found, serial_in as serial_found, quoted_in as quoted_found, bytes_in as bytes_found};

use hex::FromHexError;
use std::alloc::Global;
use tod_stamp::{Serial, Stamp};
use xrc_edge::{Bytes, NoMemory};

/// The number of decimal digits, if it is at most the most.
#[tactic(auto, unfolding(crate::specs::Lines::number_of))]
pub(crate) fn number_in(most: u32, digits: &[u8]) -> Option<u32>
    ensures value { result ≡ number_of most digits.now }
    ensures small { IfSome result (λ n. n ≤ most) }
{
    if digits.is_empty() {
        return None;
    }
    let mut value = 0;
    for digit in digits {
        if !digit.is_ascii_digit() {
            return None;
        }
        let next = u64::from(value) * 10 + u64::from(*digit - b'0');
        if next > u64::from(most) {
            return None;
        }
        value = next as u32;
    }
    Some(value)
}

#[tactic(auto, unfolding(crate::specs::Lines::stamp_in))]
pub(crate) fn stamp_in(word: &[u8]) -> Option<Stamp>
    ensures { result ≡ stamp_found word.now }
{
    Stamp::read(word).ok()
}

#[tactic(auto, unfolding(crate::specs::Lines::serial_in))]
pub(crate) fn serial_in(word: &[u8]) -> Option<Serial>
    ensures { result ≡ serial_found word.now }
{
    Serial::read(word).ok()
}

/// What stands between two quotation marks.
#[tactic(auto, unfolding(crate::specs::Lines::quoted_in))]
fn quoted_in(word: &[u8]) -> Option<&[u8]>
    ensures { MatchOption result (quoted_found word.now ≡ None) (λ quoted. quoted_found word.now ≡ Some quoted.now) }
{
    let length = word.len();
    if length >= 2 && word[0] == b'"' && word[length - 1] == b'"' {
        Some(&word[1..length - 1])
    } else {
        None
    }
}

fn copied(alloc: Global, bytes: &[u8]) -> Result<Bytes, NoMemory>
    ensures { IfOk result (λ copy. copy ≡ bytes.now) }
{
    let mut copy = Bytes::make(alloc);
    copy.extend_from_slice(alloc, bytes)?;
    Ok(copy)
}

/// The bytes that a word spells.
#[tactic(auto, unfolding(crate::specs::Lines::bytes_in))]
pub(crate) fn bytes_in(alloc: Global, word: &[u8]) -> Result<Option<Bytes>, NoMemory>
    ensures { IfOk result (λ bytes. bytes ≡ bytes_found word.now) }
{
    if let Some(quoted) = quoted_in(word) {
        return Ok(Some(copied(alloc, quoted)?));
    }
    match hex::decode(alloc, word) {
        Ok(bytes) => Ok(Some(Bytes::of(bytes))),
        Err(FromHexError::OutOfMemory) => Err(NoMemory),
        Err(_) => Ok(None),
    }
}
