//! A trace as a case tells it, and the source that gives it.

use crate::texts::{copied, put_content, put_records, serial_field};
use crate::words::Words;
use crate::wrong::Wrong;
use std::alloc::Global;
use test_fixtures::bytes_of;
use xrc_edge::MemorySource;

/// The heads of a cylinder.
const HEADS: u32 = 15;

/// The bytes of a volume in a header.
const VOLUME: usize = 8;

/// How many bytes come at once where a case doesn't say it.
const PIECES: u32 = 4_096;

/// The last pull that a case can make fail.
const LAST_PULL: usize = 65_535;

/// The first byte of each kind of entry.
const IDLE: u8 = 1;

const UPDATE: u8 = 2;

const FORMAT: u8 = 3;

const WHOLE: u8 = 4;

/// Bytes of a trace that a line changes.
#[derive(Drop)]
struct Patch {
    line: u64,
    place: usize,
    bytes: Vec<u8>,
}

/// A length to which a line cuts a trace.
#[derive(Clone, Copy)]
pub struct Cut {
    pub line: u64,
    pub length: usize,
}

/// A trace, part by part.
#[derive(Drop)]
pub struct Trace {
    alloc: Global,
    volumes: Vec<u8>,
    bases: Vec<u8>,
    base_count: u32,
    entries: Vec<u8>,
    patches: Vec<Patch>,
    cut: Option<Cut>,
    pieces: u32,
    fails: Vec<u8>,
}

/// What a try changes of a trace.
#[derive(Clone, Copy)]
pub enum Flaw {
    Nothing,
    Cut(Cut),
    /// The pull of a number fails.
    Pull(usize),
}

impl Trace {
    /// A trace of no byte.
    pub fn new(alloc: Global) -> Trace {
        Trace {
            alloc,
            volumes: Vec::new(alloc),
            bases: Vec::new(alloc),
            base_count: 0,
            entries: Vec::new(alloc),
            patches: Vec::new(alloc),
            cut: None,
            pieces: PIECES,
            fails: Vec::new(alloc),
        }
    }

    pub fn copy(&self) -> Result<Trace, Wrong> {
        let mut copy = Trace::new(self.alloc);
        copy.copy_parts(self)?;
        for patch in self.patches.iter() {
            copy.copy_patch(patch)?;
        }
        Ok(copy)
    }

    fn copy_parts(&mut self, from: &Trace) -> Result<(), Wrong> {
        self.volumes.extend_from_slice(from.volumes.as_slice())?;
        self.bases.extend_from_slice(from.bases.as_slice())?;
        self.entries.extend_from_slice(from.entries.as_slice())?;
        self.fails.extend_from_slice(from.fails.as_slice())?;
        self.base_count = from.base_count;
        self.cut = from.cut;
        self.pieces = from.pieces;
        Ok(())
    }

    fn copy_patch(&mut self, patch: &Patch) -> Result<(), Wrong> {
        let bytes = copied(self.alloc, patch.bytes.as_slice())?;
        let (line, place) = (patch.line, patch.place);
        self.patches.push(Patch { line, place, bytes })?;
        Ok(())
    }

    /// Takes a line of the trace.
    pub fn take(&mut self, keyword: &str, mut words: Words<'_>) -> Result<(), Wrong> {
        match keyword {
            "primary" => self.take_primary(&mut words)?,
            "base" => self.take_base(&mut words)?,
            "times" => self.take_times(&mut words)?,
            "raw" => words.bytes(&mut self.entries)?,
            "set" => self.take_patch(&mut words)?,
            "cut" => self.take_cut(&mut words)?,
            "pieces" => self.take_pieces(&mut words)?,
            "fault" => self.take_fault(&mut words)?,
            _ => self.take_entry(keyword, &mut words)?,
        }
        words.end()
    }

    fn take_primary(&mut self, words: &mut Words<'_>) -> Result<(), Wrong> {
        let serial = serial_field(*words, words.word()?)?;
        let cylinders = words.short()?;
        self.volumes.extend_from_slice(&serial)?;
        self.volumes.extend_from_slice(&cylinders.to_be_bytes())?;
        Ok(())
    }

    /// Reads a serial and a track, and puts the fields of volume, cylinder and head at the end.
    fn put_track(&self, words: &mut Words<'_>, into: &mut Vec<u8>) -> Result<(), Wrong> {
        let serial = serial_field(*words, words.word()?)?;
        let mut volumes = self.volumes.chunks(VOLUME);
        let Some(volume) = volumes.position(|volume| volume.starts_with(&serial)) else {
            return Err(words.wrong("the trace has no such primary"));
        };
        let track = words.long()?;
        for field in [
            volume as u64,
            u64::from(track / HEADS),
            u64::from(track % HEADS),
        ] {
            let Ok(field) = u16::try_from(field) else {
                return Err(words.wrong("a track is too large"));
            };
            into.extend_from_slice(&field.to_be_bytes())?;
        }
        Ok(())
    }

    fn take_base(&mut self, words: &mut Words<'_>) -> Result<(), Wrong> {
        let mut base = Vec::new(self.alloc);
        self.put_track(words, &mut base)?;
        put_image(self.alloc, words, &mut base)?;
        self.bases.extend_from_slice(base.as_slice())?;
        self.base_count = self.base_count.saturating_add(1);
        Ok(())
    }

    fn take_times(&mut self, words: &mut Words<'_>) -> Result<(), Wrong> {
        let count = words.long()?;
        let keyword = words.word()?;
        let entry = self.entry(keyword, words)?;
        for _ in 0..count {
            self.entries.extend_from_slice(entry.as_slice())?;
        }
        Ok(())
    }

    fn take_entry(&mut self, keyword: &str, words: &mut Words<'_>) -> Result<(), Wrong> {
        let entry = self.entry(keyword, words)?;
        self.entries.extend_from_slice(entry.as_slice())?;
        Ok(())
    }

    /// The bytes of an entry.
    fn entry(&self, keyword: &str, words: &mut Words<'_>) -> Result<Vec<u8>, Wrong> {
        let tag = match keyword {
            "idle" => IDLE,
            "update" => UPDATE,
            "format" => FORMAT,
            "whole" => WHOLE,
            _ => return Err(words.wrong("the line begins with no word of the notation")),
        };
        let mut entry = Vec::new(self.alloc);
        entry.push(tag)?;
        entry.extend_from_slice(&words.stamp()?.to_be_bytes())?;
        if tag != IDLE {
            self.put_track(words, &mut entry)?;
            put_effect(self.alloc, tag, words, &mut entry)?;
        }
        Ok(entry)
    }

    fn take_patch(&mut self, words: &mut Words<'_>) -> Result<(), Wrong> {
        let line = words.number();
        let place = words.size()?;
        let mut bytes = Vec::new(self.alloc);
        words.bytes(&mut bytes)?;
        self.patches.push(Patch { line, place, bytes })?;
        Ok(())
    }

    fn take_cut(&mut self, words: &mut Words<'_>) -> Result<(), Wrong> {
        let line = words.number();
        let length = words.size()?;
        self.cut = Some(Cut { line, length });
        Ok(())
    }

    fn take_pieces(&mut self, words: &mut Words<'_>) -> Result<(), Wrong> {
        self.pieces = words.long()?;
        if self.pieces == 0 {
            return Err(words.wrong("a pull gives at least one byte"));
        }
        Ok(())
    }

    fn take_fault(&mut self, words: &mut Words<'_>) -> Result<(), Wrong> {
        let pull = words.size()?;
        if pull > LAST_PULL {
            return Err(words.wrong("a number is too large"));
        }
        mark(&mut self.fails, pull)
    }

    /// All bytes of the trace, but for cuts.
    fn bytes(&self) -> Result<Vec<u8>, Wrong> {
        let mut bytes = Vec::new(self.alloc);
        self.put_header(&mut bytes)?;
        bytes.extend_from_slice(self.entries.as_slice())?;
        for patch in self.patches.iter() {
            put_patch(bytes.as_mut_slice(), patch)?;
        }
        Ok(bytes)
    }

    fn put_header(&self, into: &mut Vec<u8>) -> Result<(), Wrong> {
        if self.volumes.is_empty() {
            return Ok(());
        }
        let count = u16::try_from(self.volumes.len() / VOLUME).unwrap_or(u16::MAX);
        into.extend_from_slice(b"XTR1")?;
        into.extend_from_slice(&count.to_be_bytes())?;
        into.extend_from_slice(self.volumes.as_slice())?;
        into.extend_from_slice(&self.base_count.to_be_bytes())?;
        into.extend_from_slice(self.bases.as_slice())?;
        Ok(())
    }

    /// A source of the trace with a flaw.
    pub fn source(&self, flaw: Flaw) -> Result<MemorySource, Wrong> {
        let mut fails = copied(self.alloc, self.fails.as_slice())?;
        if let Flaw::Pull(pull) = flaw {
            mark(&mut fails, pull)?;
        }
        let whole = self.bytes()?;
        let cut = match flaw {
            Flaw::Cut(cut) => Some(cut),
            _ => self.cut,
        };
        let given = front(whole.as_slice(), cut)?;
        self.source_of(given, fails.as_slice())
    }

    fn source_of(&self, bytes: &[u8], fails: &[u8]) -> Result<MemorySource, Wrong> {
        let all = bytes_of(self.alloc, bytes)?;
        let marks = bytes_of(self.alloc, fails)?;
        let source = MemorySource::make(self.alloc, all, self.pieces.max(1), marks)?;
        Ok(source)
    }
}

/// Marks the pull of a number as one that fails.
fn mark(fails: &mut Vec<u8>, pull: usize) -> Result<(), Wrong> {
    for _ in fails.len()..=pull {
        fails.push(0)?;
    }
    if let Some(mark) = fails.get_mut(pull) {
        *mark = 1;
    }
    Ok(())
}

/// Puts an image of the records of the words that are left at the end.
fn put_image(alloc: Global, words: &mut Words<'_>, into: &mut Vec<u8>) -> Result<(), Wrong> {
    let mut records = Vec::new(alloc);
    let count = put_records(words, &mut records)?;
    into.extend_from_slice(&count.to_be_bytes())?;
    into.extend_from_slice(records.as_slice())?;
    Ok(())
}

/// Puts what stands after the track of an update, a format or a whole track at the end.
fn put_effect(
    alloc: Global,
    tag: u8,
    words: &mut Words<'_>,
    into: &mut Vec<u8>,
) -> Result<(), Wrong> {
    match tag {
        UPDATE => put_update(alloc, words, into),
        FORMAT => put_format(alloc, words, into),
        _ => put_image(alloc, words, into),
    }
}

fn put_update(alloc: Global, words: &mut Words<'_>, into: &mut Vec<u8>) -> Result<(), Wrong> {
    into.push(words.small()?)?;
    let mut content = Vec::new(alloc);
    let text = words.word()?;
    let length = put_content(*words, text, &mut content)?;
    let Ok(length) = u16::try_from(length) else {
        return Err(words.wrong("a content is too long"));
    };
    into.extend_from_slice(&length.to_be_bytes())?;
    into.extend_from_slice(content.as_slice())?;
    Ok(())
}

fn put_format(alloc: Global, words: &mut Words<'_>, into: &mut Vec<u8>) -> Result<(), Wrong> {
    into.push(words.small()?)?;
    let mut records = Vec::new(alloc);
    let Ok(count) = u8::try_from(put_records(words, &mut records)?) else {
        return Err(words.wrong("a format has at most 255 records"));
    };
    into.push(count)?;
    into.extend_from_slice(records.as_slice())?;
    Ok(())
}

/// Puts the bytes of a patch over those of a trace.
fn put_patch(bytes: &mut [u8], patch: &Patch) -> Result<(), Wrong> {
    let with = patch.bytes.as_slice();
    let after = bytes.len().saturating_sub(patch.place);
    if with.len() > after {
        return Err(Wrong::Line {
            number: patch.line,
            why: "the trace is shorter",
        });
    }
    for (byte, with) in bytes.iter_mut().skip(patch.place).zip(with) {
        *byte = *with;
    }
    Ok(())
}

/// The bytes of a trace in front of a cut.
fn front(bytes: &[u8], cut: Option<Cut>) -> Result<&[u8], Wrong> {
    let Some(cut) = cut else {
        return Ok(bytes);
    };
    match bytes.get(..cut.length) {
        Some(front) => Ok(front),
        None => Err(Wrong::Line {
            number: cut.line,
            why: "the trace is shorter",
        }),
    }
}
