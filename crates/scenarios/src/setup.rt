//! What a case sets up before its first call, and what it changes after a call.

use crate::site::{Past, Site};
use crate::texts::serial_field;
use crate::trace::Trace;
use crate::words::Words;
use crate::wrong::Wrong;
use crash_plant::Device;
use std::alloc::Global;

/// What a case has where it doesn't say it.
const JOURNALS: u16 = 2;

const JOURNAL: u64 = 1_826_816;

/// The bytes of a volume before its first track, and those of a cylinder.
const FRONT: u64 = 512;

const CYLINDER: u64 = 860_160;

/// A change of the devices.
#[derive(Clone, Copy)]
enum Act {
    Length(u64),
    Fill(u8),
    /// Bytes at a place, which stand in the line.
    Put(u64),
    /// The label of a serial and so many cylinders.
    Label([u8; 6], u32),
}

#[derive(Clone, Copy)]
struct Change<'a> {
    device: Device,
    act: Act,
    words: Words<'a>,
}

/// The devices and the traces of a case, as its lines tell them.
#[derive(Drop)]
pub struct Setup<'a> {
    alloc: Global,
    journals: u16,
    journal: u64,
    volumes: u16,
    changes: Vec<Change<'a>>,
    traces: Vec<Trace>,
    /// Whether it stands after a call of its case.
    is_after_call: bool,
}

impl<'a> Setup<'a> {
    pub fn new(alloc: Global) -> Setup<'a> {
        Setup {
            alloc,
            journals: JOURNALS,
            journal: JOURNAL,
            volumes: 0,
            changes: Vec::new(alloc),
            traces: Vec::new(alloc),
            is_after_call: false,
        }
    }

    /// The same set-up, before any call.
    pub fn copy(&self) -> Result<Setup<'a>, Wrong> {
        let mut copy = Setup::new(self.alloc);
        copy.journals = self.journals;
        copy.journal = self.journal;
        copy.volumes = self.volumes;
        copy.changes.extend_from_slice(self.changes.as_slice())?;
        for trace in self.traces.iter() {
            copy.traces.push(trace.copy()?)?;
        }
        Ok(copy)
    }

    /// Goes on after a call: the changes so far are in what it has left.
    pub fn go_on(&mut self) {
        self.changes.clear();
        self.is_after_call = true;
    }

    pub fn traces(&self) -> &[Trace] {
        self.traces.as_slice()
    }

    /// Takes a line of the set-up.
    pub fn take(&mut self, keyword: &str, mut words: Words<'a>) -> Result<(), Wrong> {
        match keyword {
            "journals" => self.take_journals(words),
            "volume" => self.take_volume(words),
            "length" => {
                let device = words.device()?;
                let length = words.decimal()?;
                self.push(device, Act::Length(length), words)
            }
            "fill" => {
                let device = words.device()?;
                let byte = words.byte()?;
                self.push(device, Act::Fill(byte), words)
            }
            "put" => self.take_put(words),
            "trace" => self.take_trace(words),
            _ => self.take_in_trace(keyword, words),
        }
    }

    fn push(&mut self, device: Device, act: Act, words: Words<'a>) -> Result<(), Wrong> {
        words.end()?;
        self.changes.push(Change { device, act, words })?;
        Ok(())
    }

    fn take_journals(&mut self, mut words: Words<'a>) -> Result<(), Wrong> {
        if self.is_after_call {
            return Err(words.wrong("journals stand before the first run"));
        }
        self.journals = words.short()?;
        self.journal = words.decimal()?;
        words.end()
    }

    fn take_volume(&mut self, mut words: Words<'a>) -> Result<(), Wrong> {
        if self.is_after_call {
            return Err(words.wrong("volumes stand before the first run"));
        }
        let number = words.short()?;
        let device = Device::Volume(number);
        self.volumes = self.volumes.max(number.saturating_add(1));
        if words.skip("blank") {
            let length = words.decimal()?;
            return self.push(device, Act::Length(length), words);
        }
        let serial = serial_field(words, words.word()?)?;
        let cylinders = words.long()?;
        let length = u64::from(cylinders) * CYLINDER + FRONT;
        words.end()?;
        self.push(device, Act::Length(length), words)?;
        self.push(device, Act::Label(serial, cylinders), words)
    }

    /// The bytes stay in the line, and are read when they are put.
    fn take_put(&mut self, mut words: Words<'a>) -> Result<(), Wrong> {
        let device = words.device()?;
        let place = words.decimal()?;
        let act = Act::Put(place);
        self.changes.push(Change { device, act, words })?;
        Ok(())
    }

    fn take_trace(&mut self, mut words: Words<'a>) -> Result<(), Wrong> {
        let number = words.decimal()?;
        if number != self.traces.len() as u64 {
            return Err(words.wrong("traces stand in order of their numbers"));
        }
        words.end()?;
        self.traces.push(Trace::new(self.alloc))?;
        Ok(())
    }

    fn take_in_trace(&mut self, keyword: &str, words: Words<'a>) -> Result<(), Wrong> {
        match self.traces.last_mut() {
            Some(trace) => trace.take(keyword, words),
            None => Err(words.wrong("no trace, or no word of the notation")),
        }
    }

    /// The devices as the lines so far leave them, after what a call has left if there is one.
    pub fn stand(&self, left: Option<&Past>) -> Result<Past, Wrong> {
        let mut site = match left {
            Some(left) => left.crash(self.alloc, b"")?,
            None => Site::make(self.alloc, self.journals, self.journal, self.volumes)?,
        };
        for change in self.changes.iter() {
            make_change(self.alloc, &mut site, change)?;
        }
        site.freeze(self.alloc)
    }
}

fn make_change(alloc: Global, site: &mut Site, change: &Change<'_>) -> Result<(), Wrong> {
    let device = change.device;
    let is_made = match change.act {
        Act::Length(length) => site.resize(alloc, device, length),
        Act::Fill(byte) => site.fill(device, byte),
        Act::Put(place) => put_words(alloc, site, device, place, change.words)?,
        Act::Label(serial, cylinders) => put_label(site, device, serial, cylinders),
    };
    if is_made {
        Ok(())
    } else {
        Err(
            change
                .words
                .wrong("the case has no such device, or it is shorter"),
        )
    }
}

/// Puts the bytes of the words that are left at a place.
fn put_words(
    alloc: Global,
    site: &mut Site,
    device: Device,
    place: u64,
    mut words: Words<'_>,
) -> Result<bool, Wrong> {
    let mut bytes = Vec::new(alloc);
    words.bytes(&mut bytes)?;
    words.end()?;
    Ok(site.put(device, place, bytes.as_slice()))
}

fn put_label(site: &mut Site, device: Device, serial: [u8; 6], cylinders: u32) -> bool {
    site.put(device, 0, b"XVOL")
        && site.put(device, 4, &serial)
        && site.put(device, 10, &cylinders.to_be_bytes())
}
