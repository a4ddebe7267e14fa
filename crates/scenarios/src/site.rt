//! Devices in memory, as they stand before a call, and with their past after one.

ghost use Rattle.crash_plant.specs.Calls.{NoneLent};
ghost use Rattle.crash_plant.specs.MemoryPlant.{memory_state};
ghost use Rattle.crash_plant.specs.PlainPlant.{plain_state};

use crate::program::call_program;
use crate::wrong::Wrong;
use crash_plant::{Device, Fail, Heard, MemoryPlant, PlainPlant, Plant};
use std::alloc::Global;
use std::sync::Wait;
use std::thread::Threads;
use test_fixtures::{bytes_of, failing, is_there, is_within, put, resized, zeros};
use xrc_edge::MemorySource;

/// How many bytes are read or written at once.
const CHUNK: usize = 4_096;

/// Devices none of which is lent.
#[derive(Drop)]
pub struct Site {
    plant: PlainPlant,
    ghost home: { NoneLent (plain_state plant) },
}

/// Devices none of which is lent, with their past and the calls that fail.
#[derive(Drop)]
pub struct Past {
    plant: MemoryPlant,
    ghost home: { NoneLent (memory_state plant) },
}

impl Site {
    /// Journals of a length and volumes of no byte; all bytes are zeros.
    pub fn make(alloc: Global, journals: u16, journal: u64, volumes: u16) -> Result<Site, Wrong> {
        let plant = zeros(alloc, (journals, journal), (volumes, 0), b"")?;
        Ok(Site { plant })
    }

    /// The bytes of a device; None where it is not there.
    pub fn length(&self, device: Device) -> Option<u64> {
        if is_there(&self.plant, device) {
            Some(self.plant.length(device))
        } else {
            None
        }
    }

    /// Cuts a device, or fills it with zeros; false where it is not there.
    pub fn resize(&mut self, alloc: Global, device: Device, length: u64) -> bool {
        resized(alloc, &mut self.plant, device, length)
    }

    /// Writes bytes at a place; false where the device has no such place.
    pub fn put(&mut self, device: Device, place: u64, bytes: &[u8]) -> bool {
        put(&mut self.plant, device, place, bytes)
    }

    /// Writes a byte at every place; false where the device is not there.
    pub fn fill(&mut self, device: Device, byte: u8) -> bool {
        let Some(length) = self.length(device) else {
            return false;
        };
        let bytes = [byte; CHUNK];
        for place in (0..length).step_by(CHUNK) {
            let count = (length - place).min(CHUNK as u64) as usize;
            if !self.put(device, place, &bytes[..count]) {
                return false;
            }
        }
        true
    }

    /// Reads bytes at a place; false where the device has no such place.
    pub fn get(&mut self, device: Device, place: u64, into: &mut [u8]) -> bool {
        is_within(&self.plant, device, place, into.len())
            && self.plant.read(device, place, into).is_ok()
    }

    /// Whether a device has the same bytes here and there.
    pub fn is_same(&mut self, other: &mut Site, device: Device) -> bool {
        let Some(length) = self.length(device) else {
            return false;
        };
        let (mut here, mut there) = ([0u8; CHUNK], [0u8; CHUNK]);
        for place in (0..length).step_by(CHUNK) {
            let count = (length - place).min(CHUNK as u64) as usize;
            let is_read = self.get(device, place, &mut here[..count])
                && other.get(device, place, &mut there[..count]);
            // After a short last piece both hold what the piece before had, which is the same.
            if !is_read || here != there {
                return false;
            }
        }
        other.length(device) == Some(length)
    }

    /// Puts a script before the devices.
    #[tactic(auto, using(crash_plant::proofs::Resize::none_lent_same))]
    pub fn set_script(&mut self, alloc: Global, script: &[u8]) -> Result<(), Wrong> {
        let bytes = bytes_of(alloc, script)?;
        self.plant.set_script(bytes);
        Ok(())
    }

    /// The devices with their past, of which calls fail.
    pub fn into_past(self, alloc: Global, fails: &[Fail]) -> Result<Past, Wrong> {
        let Site { plant } = self;
        let plant = failing(alloc, plant, fails)?;
        Ok(Past { plant })
    }

    /// The devices as they are, to be copied by crashes.
    pub fn freeze(self, alloc: Global) -> Result<Past, Wrong> {
        self.into_past(alloc, &[])
    }
}

impl Past {
    /// What a crash leaves, where open ranges are filled with these bytes, repeated; with zeros where there are none.
    pub fn crash(&self, alloc: Global, fill: &[u8]) -> Result<Site, Wrong> {
        let plant = self.plant.crash(alloc, fill)?;
        Ok(Site { plant })
    }

    /// What was said.
    pub fn said(&self) -> &[u8] {
        self.plant.said()
    }

    /// Makes a call of a program over traces, and gives its status.
    pub fn call<R: Threads + Wait + Sync>(
        &mut self,
        rt: &R,
        alloc: Global,
        words: &[String],
        traces: Vec<MemorySource>,
    ) -> Result<u8, Wrong> {
        let status = call_program(rt, alloc, words, traces, &mut self.plant)?;
        Ok(status)
    }

    /// Hears what the call left of the script, and says whether it is these bytes.
    pub fn is_left(&mut self, script: &[u8]) -> bool {
        for byte in script {
            if self.plant.hear() != Ok(Heard::Byte(*byte)) {
                return false;
            }
        }
        self.plant.hear() == Ok(Heard::End)
    }
}
