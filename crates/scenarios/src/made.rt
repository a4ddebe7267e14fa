//! A call that was made, and what its case wants of it.

use crate::call::{Call, Outcome};
use crate::report::{Part, Report};
use crate::site::{Past, Site};
use crate::texts::{copied, serial_field, spell, spell_line};
use crate::words::Words;
use crate::wrong::Wrong;
use crash_plant::Device;
use std::alloc::Global;

/// The place of the first slot, and the bytes of one.
const FRONT: u64 = 512;

const SLOT: u64 = 57_344;

/// How many bytes are looked through at once.
const PIECE: usize = 4_096;

/// A slot that a line names.
#[derive(Clone, Copy, PartialEq, Eq)]
struct Slot {
    device: u16,
    track: u32,
}

/// What a call has said and left, as far as its case has named it.
#[derive(Drop)]
pub struct Made {
    alloc: Global,
    status: u8,
    said: Vec<u8>,
    /// How many bytes of what was said were named.
    named: usize,
    has_status: bool,
    slots: Vec<Slot>,
    /// What a crash leaves after it.
    left: Site,
    part: Part,
}

impl Made {
    /// After a call whose crash leaves ranges filled with these bytes.
    pub fn new(alloc: Global, outcome: &Outcome, fill: &[u8], part: Part) -> Result<Made, Wrong> {
        let left = outcome.past.crash(alloc, fill)?;
        let said = copied(alloc, outcome.past.said())?;
        Ok(Made {
            alloc,
            status: outcome.status,
            said,
            named: 0,
            has_status: false,
            slots: Vec::new(alloc),
            left,
            part,
        })
    }

    /// Looks from now on at what a crash leaves by another fill.
    pub fn look_at(&mut self, past: &Past, fill: &[u8]) -> Result<(), Wrong> {
        self.left = past.crash(self.alloc, fill)?;
        Ok(())
    }

    /// The devices that it looks at.
    pub fn into_left(self) -> Site {
        self.left
    }

    /// Takes a line that wants something of the call.
    pub fn take(
        &mut self,
        keyword: &str,
        words: Words<'_>,
        report: &mut Report<'_>,
    ) -> Result<(), Wrong> {
        match keyword {
            "<" => self.wants_line(words, report),
            "<|" => self.wants_text(words, report),
            "status" => self.wants_status(words, report),
            "slot" => self.wants_slot(words, report),
            "slots" => self.wants_slots(words, report),
            "label" => self.wants_label(words, report),
            "holds" => self.wants_bytes(words, report),
            "finds" => self.wants_somewhere(words, report),
            _ => Err(words.wrong("the line begins with no word of the notation")),
        }
    }

    fn wants_line(&mut self, words: Words<'_>, report: &mut Report<'_>) -> Result<(), Wrong> {
        let mut wanted = String::new(self.alloc);
        spell_line(words, words.rest(), &mut wanted)?;
        self.wants_said(words.number(), wanted.as_bytes(), report)
    }

    fn wants_text(&mut self, words: Words<'_>, report: &mut Report<'_>) -> Result<(), Wrong> {
        let mut wanted = String::new(self.alloc);
        spell(words, words.rest(), &mut wanted)?;
        self.wants_said(words.number(), wanted.as_bytes(), report)
    }

    /// The next bytes that were said are these.
    fn wants_said(
        &mut self,
        number: u64,
        wanted: &[u8],
        report: &mut Report<'_>,
    ) -> Result<(), Wrong> {
        if after(self.said.as_slice(), self.named).starts_with(wanted) {
            self.named = self.named.saturating_add(wanted.len());
            return Ok(());
        }
        let part = self.part.with("said");
        let got = first_line(after(self.said.as_slice(), self.named));
        report.compare(number, part, wanted, got)
    }

    fn wants_status(&mut self, mut words: Words<'_>, report: &mut Report<'_>) -> Result<(), Wrong> {
        let wanted = words.small()?;
        words.end()?;
        self.has_status = true;
        report.compare_status(
            words.number(),
            self.part.with("status"),
            wanted,
            self.status,
        )
    }

    fn wants_slot(&mut self, mut words: Words<'_>, report: &mut Report<'_>) -> Result<(), Wrong> {
        let device = words.short()?;
        let track = words.long()?;
        self.slots.push(Slot { device, track })?;
        let wanted = self.wanted_bytes(&mut words)?;
        self.check_slot(words, Slot { device, track }, wanted.as_slice(), report)
    }

    fn check_slot(
        &mut self,
        words: Words<'_>,
        slot: Slot,
        wanted: &[u8],
        report: &mut Report<'_>,
    ) -> Result<(), Wrong> {
        let place = FRONT + u64::from(slot.track) * SLOT;
        self.check_bytes(words, Device::Volume(slot.device), place, wanted, report)
    }

    fn wants_slots(&mut self, mut words: Words<'_>, report: &mut Report<'_>) -> Result<(), Wrong> {
        let device = words.short()?;
        let wanted = self.wanted_bytes(&mut words)?;
        let Some(length) = self.left.length(Device::Volume(device)) else {
            return Err(words.wrong("the case has no such volume"));
        };
        let tracks = u32::try_from(length.saturating_sub(FRONT) / SLOT).unwrap_or(u32::MAX);
        if tracks == 0 {
            return Err(words.wrong("the volume has no slot"));
        }
        for track in 0..tracks {
            let slot = Slot { device, track };
            if !self.slots.as_slice().contains(&slot) {
                self.check_slot(words, slot, wanted.as_slice(), report)?;
            }
        }
        Ok(())
    }

    fn wants_label(&mut self, mut words: Words<'_>, report: &mut Report<'_>) -> Result<(), Wrong> {
        let device = words.short()?;
        let mut wanted = copied(self.alloc, b"XVOL")?;
        wanted.extend_from_slice(&serial_field(words, words.word()?)?)?;
        words.end()?;
        self.check_bytes(words, Device::Volume(device), 0, wanted.as_slice(), report)
    }

    fn wants_bytes(&mut self, mut words: Words<'_>, report: &mut Report<'_>) -> Result<(), Wrong> {
        let device = words.device()?;
        let place = words.decimal()?;
        let wanted = self.wanted_bytes(&mut words)?;
        self.check_bytes(words, device, place, wanted.as_slice(), report)
    }

    /// Bytes stand somewhere on a device.
    fn wants_somewhere(
        &mut self,
        mut words: Words<'_>,
        report: &mut Report<'_>,
    ) -> Result<(), Wrong> {
        let device = words.device()?;
        let wanted = self.wanted_bytes(&mut words)?;
        let Some(length) = self.left.length(device) else {
            return Err(words.wrong("the case has no such device"));
        };
        if self.is_somewhere(device, length, wanted.as_slice())? {
            return Ok(());
        }
        let part = self.part.with("bytes anywhere");
        report.compare(words.number(), part, wanted.as_slice(), b"")
    }

    /// Whether bytes stand somewhere on a device of a length.
    fn is_somewhere(&mut self, device: Device, length: u64, wanted: &[u8]) -> Result<bool, Wrong> {
        let mut piece = Vec::new(self.alloc);
        for place in (0..length).step_by(PIECE) {
            let after = (length - place).min(PIECE.saturating_add(wanted.len()) as u64);
            piece.clear();
            for _ in 0..after {
                piece.push(0)?;
            }
            let is_read = self.left.get(device, place, piece.as_mut_slice());
            if is_read && has_bytes(piece.as_slice(), wanted) {
                return Ok(true);
            }
        }
        Ok(false)
    }

    /// The bytes of the words that are left.
    fn wanted_bytes(&self, words: &mut Words<'_>) -> Result<Vec<u8>, Wrong> {
        let mut wanted = Vec::new(self.alloc);
        words.bytes(&mut wanted)?;
        words.end()?;
        Ok(wanted)
    }

    fn check_bytes(
        &mut self,
        words: Words<'_>,
        device: Device,
        place: u64,
        wanted: &[u8],
        report: &mut Report<'_>,
    ) -> Result<(), Wrong> {
        let mut got = copied(self.alloc, wanted)?;
        if !self.left.get(device, place, got.as_mut_slice()) {
            return Err(words.wrong("the case has no such device, or it is shorter"));
        }
        let part = self.part.with("bytes");
        report.compare(words.number(), part, wanted, got.as_slice())
    }

    /// A device has the bytes that it had before the call.
    pub fn wants_same(
        &mut self,
        mut words: Words<'_>,
        before: &mut Site,
        report: &mut Report<'_>,
    ) -> Result<(), Wrong> {
        let device = words.device()?;
        words.end()?;
        if before.length(device).is_none() {
            return Err(words.wrong("the case has no such device"));
        }
        if self.left.is_same(before, device) {
            return Ok(());
        }
        report.differ(words.number(), "a byte of the device is another one")
    }

    /// All that was said has been named, and the status is 0 where none was named.
    pub fn end_as_done(&self, number: u64, report: &mut Report<'_>) -> Result<(), Wrong> {
        if !self.has_status {
            report.compare_status(number, self.part.with("status"), 0, self.status)?;
        }
        self.end_said(number, report)
    }

    /// All that was said has been named, and the status.
    pub fn end(&self, number: u64, report: &mut Report<'_>) -> Result<(), Wrong> {
        if !self.has_status {
            report.differ(number, "no status is wanted of the call")?;
        }
        self.end_said(number, report)
    }

    /// All that was said has been named.
    fn end_said(&self, number: u64, report: &mut Report<'_>) -> Result<(), Wrong> {
        let left = after(self.said.as_slice(), self.named);
        report.compare(number, self.part.with("said at last"), b"", left)
    }
}

/// Whether bytes stand somewhere within others.
fn has_bytes(all: &[u8], wanted: &[u8]) -> bool {
    (0..all.len()).any(|place| after(all, place).starts_with(wanted))
}

/// What stands after so many bytes of a text.
fn after(text: &[u8], count: usize) -> &[u8] {
    text.get(count..).unwrap_or(b"")
}

/// Whether a line that begins with this word wants what a call says, or what it leaves by itself.
pub fn is_wanted(keyword: &str) -> bool {
    matches!(
        keyword,
        "<" | "<|" | "status" | "slot" | "slots" | "label" | "holds" | "finds"
    )
}

/// The first line of a text, with its line feed.
fn first_line(text: &[u8]) -> &[u8] {
    match text.iter().position(|byte| *byte == b'\n') {
        Some(place) => text.get(..=place).unwrap_or(text),
        None => text,
    }
}
