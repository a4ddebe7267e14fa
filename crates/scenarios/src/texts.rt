//! Lines that are heard or said, and the bytes of serials and records.

use crate::words::Words;
use crate::wrong::Wrong;
use std::alloc::Global;
use std::fmt;
use std::fmt::Write;

/// Puts a text of a line at the end, in which `[64]` stands for the 16 digits of a stamp.
pub fn spell(words: Words<'_>, text: &str, into: &mut String) -> Result<(), Wrong> {
    let mut pieces = text.split('[');
    if let Some(first) = pieces.next() {
        into.push_str(first)?;
    }
    for piece in pieces {
        spell_piece(words, piece, into)?;
    }
    Ok(())
}

/// Puts what stands after a `[` at the end.
fn spell_piece(words: Words<'_>, piece: &str, into: &mut String) -> Result<(), Wrong> {
    let (digits, rest) = piece.split_once(']').unwrap_or(("", piece));
    let Ok(stamp) = u64::from_str_radix(digits, 16) else {
        return Err(words.wrong("a stamp is wanted between [ and ]"));
    };
    write!(into, "{stamp:016X}{rest}")?;
    Ok(())
}

pub fn spell_line(words: Words<'_>, line: &str, into: &mut String) -> Result<(), Wrong> {
    spell(words, line, into)?;
    into.push_str("\n")?;
    Ok(())
}

/// Puts the lines of `< LINE < LINE <| TEXT`, which are left of a row, at the end.
pub fn spell_lines(words: Words<'_>, into: &mut String) -> Result<(), Wrong> {
    let text = words.rest().trim_start();
    if !text.is_empty() && !text.starts_with('<') {
        return Err(words.wrong("< LINE is wanted"));
    }
    let (lines, last) = text.split_once("<| ").unwrap_or((text, ""));
    for line in lines.split("< ") {
        if !line.trim().is_empty() {
            spell_line(words, line.trim(), into)?;
        }
    }
    spell(words, last, into)
}

/// How many bytes the first so many lines of a text have; None where there are fewer lines.
pub fn length_of_lines(text: &[u8], lines: u64) -> Option<usize> {
    let mut left = lines;
    for (place, byte) in text.iter().enumerate() {
        if left == 0 {
            return Some(place);
        }
        if *byte == b'\n' {
            left -= 1;
        }
    }
    if left == 0 { Some(text.len()) } else { None }
}

/// Bytes as they are shown in a difference.
#[derive(Clone, Copy)]
pub struct Shown<'a>(pub &'a [u8]);

impl fmt::Display for Shown<'_> {
    fn fmt<W: fmt::Write>(&self, f: &mut fmt::Formatter<W>) -> fmt::Result {
        for byte in self.0 {
            let byte = *byte;
            match byte {
                b' '..=b'~' => f.write_char(char::from(byte))?,
                _ => write!(f, "\\x{byte:02X}")?,
            }
        }
        Ok(())
    }
}

/// The field of a serial: its text filled with spaces.
pub fn serial_field(words: Words<'_>, serial: &str) -> Result<[u8; 6], Wrong> {
    let mut field = *b"      ";
    let text = serial.as_bytes();
    if text.len() > field.len() {
        return Err(words.wrong("a serial is too long"));
    }
    field[..text.len()].copy_from_slice(text);
    Ok(field)
}

/// Puts the records of the words that are left at the end, and says how many they are.
pub fn put_records(words: &mut Words<'_>, into: &mut Vec<u8>) -> Result<u16, Wrong> {
    let mut count = 0u16;
    for word in words.rest().split_whitespace() {
        if word != "-" {
            put_record(*words, word, into)?;
            count = count.saturating_add(1);
        }
    }
    *words = words.with_rest("");
    Ok(count)
}

/// Puts a record at the end: its number, the lengths of its key and of its content, and both.
fn put_record(words: Words<'_>, word: &str, into: &mut Vec<u8>) -> Result<(), Wrong> {
    let Some((front, content)) = word.split_once('=') else {
        return Err(words.wrong("a record is NUMBER=CONTENT or NUMBER:KEY=CONTENT"));
    };
    let (number, key) = front.split_once(':').unwrap_or((front, ""));
    let mut number = words.with_rest(number);
    into.push(number.small()?)?;
    let lengths = into.len();
    into.extend_from_slice(&[0; 3])?;
    let key = put_content(words, key, into)?;
    let content = put_content(words, content, into)?;
    let (Ok(key), Ok(content)) = (u8::try_from(key), u16::try_from(content)) else {
        return Err(words.wrong("a key or a content is too long"));
    };
    put_lengths(into, lengths, key, content);
    Ok(())
}

/// Puts the lengths of a key and of a content at a place.
fn put_lengths(bytes: &mut Vec<u8>, place: usize, key: u8, content: u16) {
    let [high, low] = content.to_be_bytes();
    for (byte, with) in bytes.iter_mut().skip(place).zip([key, high, low]) {
        *byte = with;
    }
}

/// Puts a content at the end, and says how long it is.
pub fn put_content(words: Words<'_>, content: &str, into: &mut Vec<u8>) -> Result<usize, Wrong> {
    let before = into.len();
    if let Some(count) = content.strip_prefix('*') {
        put_zeros(words, count, into)?;
    } else if let Some(digits) = content.strip_prefix('x') {
        words.put_digits(digits.as_bytes(), into)?;
    } else {
        into.extend_from_slice(content.as_bytes())?;
    }
    Ok(into.len().saturating_sub(before))
}

fn put_zeros(words: Words<'_>, count: &str, into: &mut Vec<u8>) -> Result<(), Wrong> {
    let mut count = words.with_rest(count);
    let count = count.long()?;
    for _ in 0..count {
        into.push(0)?;
    }
    Ok(())
}

/// A list of bytes with the same items.
pub fn copied(alloc: Global, bytes: &[u8]) -> Result<Vec<u8>, Wrong> {
    let mut copy = Vec::new(alloc);
    copy.extend_from_slice(bytes)?;
    Ok(copy)
}
