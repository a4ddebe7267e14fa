//! The words of a line, read one after another.

ghost use Rattle.std.specs.Prelude.{◌≤◌};

use crate::wrong::Wrong;
use crash_plant::Device;

/// What is left of a line.
#[derive(Clone, Copy)]
pub struct Words<'a> {
    number: u64,
    rest: &'a str,
}

impl<'a> Words<'a> {
    /// The line of this number in its file.
    pub fn new(number: u64, line: &'a str) -> Words<'a> {
        Words { number, rest: line }
    }

    pub fn number(self) -> u64 {
        self.number
    }

    /// All that is left of the line, with its spaces.
    pub fn rest(self) -> &'a str {
        self.rest
    }

    /// The same line with something else left of it.
    pub fn with_rest(self, rest: &'a str) -> Words<'a> {
        Words {
            number: self.number,
            rest,
        }
    }

    /// Refuses the line.
    pub fn wrong(self, why: &'static str) -> Wrong {
        Wrong::Line {
            number: self.number,
            why,
        }
    }

    /// The next word, which is passed then.
    pub fn next(&mut self) -> Option<&'a str> {
        let rest = self.rest.trim_start();
        if rest.is_empty() {
            return None;
        }
        let (word, rest) = rest.split_once(' ').unwrap_or((rest, ""));
        self.rest = rest;
        Some(word)
    }

    pub fn word(&mut self) -> Result<&'a str, Wrong> {
        match self.next() {
            Some(word) => Ok(word),
            None => Err(self.wrong("a word is missing")),
        }
    }

    /// Whether this word is next, which is passed then.
    pub fn skip(&mut self, expected: &str) -> bool {
        let mut after = *self;
        let is_next = after.next() == Some(expected);
        if is_next {
            *self = after;
        }
        is_next
    }

    /// This word is next.
    pub fn expect(&mut self, expected: &str, why: &'static str) -> Result<(), Wrong> {
        if self.skip(expected) {
            Ok(())
        } else {
            Err(self.wrong(why))
        }
    }

    /// No word is left.
    pub fn end(self) -> Result<(), Wrong> {
        if self.rest.trim().is_empty() {
            Ok(())
        } else {
            Err(self.wrong("there are too many words"))
        }
    }

    /// A number without a sign.
    fn digits(&mut self, radix: u32) -> Result<u64, Wrong>
        requires low { 2 ≤ radix }
        requires high { radix ≤ 36 }
    {
        let word = self.word()?;
        match u64::from_str_radix(word, radix) {
            Ok(number) if !word.starts_with('+') => Ok(number),
            _ => Err(self.wrong("a number is wanted")),
        }
    }

    pub fn decimal(&mut self) -> Result<u64, Wrong> {
        self.digits(10)
    }

    pub fn stamp(&mut self) -> Result<u64, Wrong> {
        self.digits(16)
    }

    /// A decimal number that counts bytes, traces or pulls.
    pub fn size(&mut self) -> Result<usize, Wrong> {
        let number = self.decimal()?;
        usize::try_from(number).map_err(|_| self.wrong("a number is too large"))
    }

    /// A decimal number of 32 bits.
    pub fn long(&mut self) -> Result<u32, Wrong> {
        let number = self.decimal()?;
        u32::try_from(number).map_err(|_| self.wrong("a number is too large"))
    }

    /// A decimal number of 16 bits.
    pub fn short(&mut self) -> Result<u16, Wrong> {
        let number = self.decimal()?;
        u16::try_from(number).map_err(|_| self.wrong("a number is too large"))
    }

    /// A decimal number of 8 bits.
    pub fn small(&mut self) -> Result<u8, Wrong> {
        let number = self.decimal()?;
        u8::try_from(number).map_err(|_| self.wrong("a number is too large"))
    }

    /// A byte in hexadecimal digits.
    pub fn byte(&mut self) -> Result<u8, Wrong> {
        let number = self.digits(16)?;
        u8::try_from(number).map_err(|_| self.wrong("a byte is wanted"))
    }

    /// A device; None where the next word names none.
    fn named_device(&mut self) -> Result<Option<Device>, Wrong> {
        let mut after = *self;
        let device = match after.next() {
            Some("control") => Device::Control,
            Some("state") => Device::State,
            Some("journal") => Device::Journal(after.short()?),
            Some("volume") => Device::Volume(after.short()?),
            _ => return Ok(None),
        };
        *self = after;
        Ok(Some(device))
    }

    pub fn device(&mut self) -> Result<Device, Wrong> {
        match self.named_device()? {
            Some(device) => Ok(device),
            None => Err(self.wrong("a device is wanted")),
        }
    }

    /// A device, or None for the console.
    pub fn place_of_calls(&mut self) -> Result<Option<Device>, Wrong> {
        if self.skip("console") {
            return Ok(None);
        }
        Ok(Some(self.device()?))
    }

    /// `said N` where it is next, else 0.
    pub fn said(&mut self) -> Result<u64, Wrong> {
        if self.skip("said") {
            self.decimal()
        } else {
            Ok(0)
        }
    }

    /// Puts the bytes of the next words at the end, of which there is one at least, up to a keyword.
    pub fn bytes(&mut self, into: &mut Vec<u8>) -> Result<(), Wrong> {
        let before = into.len();
        self.bytes_if_any(into)?;
        if into.len() == before {
            return Err(self.wrong("bytes are wanted"));
        }
        Ok(())
    }

    fn bytes_if_any(&mut self, into: &mut Vec<u8>) -> Result<(), Wrong> {
        for _ in 0..self.rest.len() {
            let mut after = *self;
            let Some(word) = after.next() else {
                break;
            };
            if is_keyword(word) {
                break;
            }
            self.word_bytes(word, into)?;
            *self = after;
        }
        Ok(())
    }

    fn word_bytes(self, word: &str, into: &mut Vec<u8>) -> Result<(), Wrong> {
        let (text, count) = self.repeated(word)?;
        for _ in 0..count {
            self.put_bytes(text, into)?;
        }
        Ok(())
    }

    /// A word and how often it stands there.
    fn repeated<'b>(self, word: &'b str) -> Result<(&'b str, u32), Wrong> {
        let Some((text, count)) = word.split_once('*') else {
            return Ok((word, 1));
        };
        match count.parse::<u32>() {
            Ok(count) => Ok((text, count)),
            Err(_) => Err(self.wrong("a number is wanted after *")),
        }
    }

    fn put_bytes(self, text: &str, into: &mut Vec<u8>) -> Result<(), Wrong> {
        match text.as_bytes() {
            [b'\'', text @ ..] => put_text(text, into),
            digits => self.put_digits(digits, into),
        }
    }

    /// Puts the bytes of pairs of hexadecimal digits at the end.
    pub fn put_digits(self, digits: &[u8], into: &mut Vec<u8>) -> Result<(), Wrong> {
        for pair in digits.chunks(2) {
            match byte_of(pair) {
                Some(byte) => into.push(byte)?,
                None => return Err(self.wrong("pairs of hexadecimal digits are wanted")),
            }
        }
        Ok(())
    }
}

/// Whether a word ends a row of bytes.
fn is_keyword(word: &str) -> bool {
    matches!(word, "control" | "state" | "journal" | "volume" | "status")
}

/// Puts a text at the end, with a space for each `_`.
fn put_text(text: &[u8], into: &mut Vec<u8>) -> Result<(), Wrong> {
    for byte in text {
        into.push(if *byte == b'_' { b' ' } else { *byte })?;
    }
    Ok(())
}

fn digit_of(byte: u8) -> Option<u8> {
    match byte {
        b'0'..=b'9' => Some(byte - b'0'),
        b'A'..=b'F' => Some(byte - b'A' + 10),
        b'a'..=b'f' => Some(byte - b'a' + 10),
        _ => None,
    }
}

fn byte_of(pair: &[u8]) -> Option<u8> {
    let [high, low] = pair else {
        return None;
    };
    let high = digit_of(*high)?;
    let low = digit_of(*low)?;
    Some(high.wrapping_mul(16) | low)
}
