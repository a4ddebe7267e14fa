//! Tracks as lists of records, what a write does to one, and the bytes that spell it.

use xrc_edge::NoMemory;

/// The most that the sizes of a track's records add up to.
const CAPACITY: u32 = 56_664;

/// What a record takes beside its key and its content.
const FRONT: u32 = 8;

/// The byte of which a key consists.
const KEY: u8 = b'K';

/// So many equal bytes with zeros after them.
#[derive(Clone, Copy, Debug, PartialEq, Eq)]
pub struct Content {
    pub byte: u8,
    pub filled: u16,
    pub length: u16,
}

impl Content {
    /// So many equal bytes.
    pub fn of(byte: u8, length: u16) -> Content {
        Content {
            byte,
            filled: length,
            length,
        }
    }

    /// The bytes cut to a length, or filled with zeros.
    fn fitted(self, length: u16) -> Content {
        Content {
            byte: self.byte,
            filled: self.filled.min(length),
            length,
        }
    }

    fn put(self, into: &mut Vec<u8>) -> Result<(), NoMemory> {
        put_equal(self.byte, self.filled, into)?;
        put_equal(0, self.length.saturating_sub(self.filled), into)
    }
}

fn put_equal(byte: u8, count: u16, into: &mut Vec<u8>) -> Result<(), NoMemory> {
    for _ in 0..count {
        into.push(byte)?;
    }
    Ok(())
}

#[derive(Clone, Copy, Debug, PartialEq, Eq)]
pub struct Record {
    pub number: u8,
    /// The length of its key.
    pub key: u8,
    pub content: Content,
}

impl Record {
    pub fn size(&self) -> u32 {
        let field = FRONT + u32::from(self.key);
        field.saturating_add(u32::from(self.content.length))
    }

    fn put(&self, into: &mut Vec<u8>) -> Result<(), NoMemory> {
        let [high, low] = self.content.length.to_be_bytes();
        into.extend_from_slice(&[self.number, self.key, high, low])?;
        put_equal(KEY, u16::from(self.key), into)?;
        self.content.put(into)
    }
}

/// What a write does to its track.
#[derive(Drop)]
pub enum Effect {
    /// A record gets other bytes, and keeps its length.
    Update { number: u8, bytes: Content },
    /// The records after one are erased, and these are put in their place as far as they fit. 0 is the track's start.
    Format { after: u8, records: Vec<Record> },
    /// The track is replaced.
    Whole { records: Vec<Record> },
}

/// Whether records fit a track together.
pub fn fits(records: &[Record], more: Record) -> bool {
    let mut total = u64::from(more.size());
    for record in records {
        total = total.saturating_add(u64::from(record.size()));
    }
    total <= u64::from(CAPACITY)
}

/// Changes a track as a write does.
pub fn apply(track: &mut Vec<Record>, effect: &Effect) -> Result<(), NoMemory> {
    match effect {
        Effect::Update { number, bytes } => {
            update(track, *number, *bytes);
            Ok(())
        }
        Effect::Format { after, records } => format(track, *after, records.as_slice()),
        Effect::Whole { records } => {
            track.clear();
            track.extend_from_slice(records.as_slice())?;
            Ok(())
        }
    }
}

fn update(track: &mut Vec<Record>, number: u8, bytes: Content) {
    for record in track.iter_mut() {
        if record.number == number {
            record.content = bytes.fitted(record.content.length);
        }
    }
}

fn format(track: &mut Vec<Record>, after: u8, records: &[Record]) -> Result<(), NoMemory> {
    let is_found = track.iter().any(|record| record.number == after);
    if after != 0 && !is_found {
        return Ok(());
    }
    let kept = track.iter().filter(|record| record.number <= after).count();
    track.truncate(kept);
    for record in records {
        if !fits(track.as_slice(), *record) {
            return Ok(());
        }
        track.push(*record)?;
    }
    Ok(())
}

pub fn put_records(records: &[Record], into: &mut Vec<u8>) -> Result<(), NoMemory> {
    for record in records {
        record.put(into)?;
    }
    Ok(())
}

/// Puts the image of a track at the end: the count of its records, and each of them.
pub fn put_image(records: &[Record], into: &mut Vec<u8>) -> Result<(), NoMemory> {
    let count = u16::try_from(records.len()).unwrap_or(u16::MAX);
    into.extend_from_slice(&count.to_be_bytes())?;
    put_records(records, into)
}

/// Puts what stands in an entry after its track at the end.
pub fn put_effect(effect: &Effect, into: &mut Vec<u8>) -> Result<(), NoMemory> {
    match effect {
        Effect::Update { number, bytes } => {
            let [high, low] = bytes.length.to_be_bytes();
            into.extend_from_slice(&[*number, high, low])?;
            bytes.put(into)
        }
        Effect::Format { after, records } => {
            let count = u8::try_from(records.len()).unwrap_or(u8::MAX);
            into.extend_from_slice(&[*after, count])?;
            put_records(records.as_slice(), into)
        }
        Effect::Whole { records } => put_image(records.as_slice(), into),
    }
}
