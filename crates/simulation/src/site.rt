//! Devices in memory: at rest before a call, and with their past after one.

ghost use Rattle.std.specs.Prelude.{IfOk};
ghost use Rattle.crash_plant.specs.Calls.{NoneLent};
ghost use Rattle.crash_plant.specs.MemoryPlant.{memory_state};
ghost use Rattle.crash_plant.specs.PlainPlant.{plain_state};
ghost use Rattle.xrc_session.specs.Lanes.{HaveNoReader};

use crate::input::{Input, Volume};
use crate::spelling::serial_bytes;
use crate::world::World;
use crash_plant::{Device, Fail, MemoryPlant, PlainPlant, Plant};
use mover::Lane;
use std::alloc::Global;
use std::sync::Wait;
use std::thread::Threads;
use test_fixtures::{bytes_of, failing, is_within, put, resized, zeros};
use xrc_cli::xrc;
use xrc_edge::{MemorySource, NoMemory};

/// What a journal of one controller needs beside its front.
const CONTROLLER_ROOM: u64 = 1_818_624;

const JOURNAL_FRONT: u64 = 8_192;

/// Where the first slot of a volume begins, and the bytes of a slot and of a cylinder.
const FIRST_SLOT: u64 = 512;

const SLOT: u64 = 57_344;

const CYLINDER: u64 = 860_160;

/// How many bytes are written at once.
const CHUNK: usize = 4_096;

/// Devices at rest, none of which is lent.
#[derive(Drop)]
pub struct Rest {
    plant: PlainPlant,
    ghost home: { NoneLent (plain_state plant) },
}

/// Devices with their past, none of which is lent.
#[derive(Drop)]
pub struct Past {
    plant: MemoryPlant,
    ghost home: { NoneLent (memory_state plant) },
}

impl Rest {
    /// The devices of an input before its run.
    pub fn of(alloc: Global, input: &Input) -> Result<Rest, NoMemory> {
        let controllers = input.controllers.len() as u64;
        let journal = JOURNAL_FRONT.saturating_add(CONTROLLER_ROOM.saturating_mul(controllers));
        let volumes = u16::try_from(input.volumes.len()).unwrap_or(0);
        let plant = zeros(alloc, (input.journals, journal), (volumes, 0), b"")?;
        let mut site = Rest { plant };
        for number in 0..input.journals {
            site.fill(Device::Journal(number), journal, input.fill);
        }
        for (number, volume) in input.volumes.iter().enumerate() {
            let number = u16::try_from(number).unwrap_or(0);
            site.make_volume(alloc, Device::Volume(number), *volume);
        }
        Ok(site)
    }

    /// Gives a volume its length, its bytes and its label. A length for which no memory is there shows in a run.
    fn make_volume(&mut self, alloc: Global, device: Device, volume: Volume) {
        let length = FIRST_SLOT.saturating_add(CYLINDER.saturating_mul(u64::from(
            volume.cylinders,
        )));
        let _ = resized(alloc, &mut self.plant, device, length);
        self.fill(device, length, volume.fill);
        if let Some(cylinders) = volume.label {
            let serial = serial_bytes(b'S', volume.serial);
            let _ = put(&mut self.plant, device, 0, b"XVOL");
            let _ = put(&mut self.plant, device, 4, &serial);
            let _ = put(
                &mut self.plant,
                device,
                10,
                &u32::from(cylinders).to_be_bytes(),
            );
        }
    }

    /// Writes a byte everywhere.
    fn fill(&mut self, device: Device, length: u64, byte: u8) {
        if byte == 0 {
            return;
        }
        let bytes = [byte; CHUNK];
        for place in (0..length).step_by(CHUNK) {
            let count = (length - place).min(CHUNK as u64) as usize;
            let _ = put(&mut self.plant, device, place, &bytes[..count]);
        }
    }

    /// Whether a device holds these bytes at a place.
    pub fn holds(
        &mut self,
        alloc: Global,
        device: Device,
        place: u64,
        bytes: &[u8],
    ) -> Result<bool, NoMemory> {
        let got = self.read(alloc, device, place, bytes.len())?;
        Ok(got.as_slice() == bytes)
    }

    /// So many bytes from a place of a device on; none where they are not there.
    pub fn read(
        &mut self,
        alloc: Global,
        device: Device,
        place: u64,
        count: usize,
    ) -> Result<Vec<u8>, NoMemory> {
        let mut bytes = vec![in alloc; 0u8; count]?;
        if !self.get(device, place, bytes.as_mut_slice()) {
            bytes.clear();
        }
        Ok(bytes)
    }

    /// Reads bytes at a place; false where the device has no such place.
    fn get(&mut self, device: Device, place: u64, into: &mut [u8]) -> bool {
        is_within(&self.plant, device, place, into.len())
            && self.plant.read(device, place, into).is_ok()
    }

    /// Whether the slot of a track begins with these bytes.
    pub fn has_slot(
        &mut self,
        alloc: Global,
        device: u16,
        track: usize,
        image: &[u8],
    ) -> Result<bool, NoMemory> {
        let place = SLOT.saturating_mul(track as u64).saturating_add(FIRST_SLOT);
        self.holds(alloc, Device::Volume(device), place, image)
    }

    /// The devices with a past from now on, of which calls fail, and before a script.
    #[tactic(auto, using(crash_plant::proofs::Resize::none_lent_same))]
    pub fn begin(self, alloc: Global, script: &str, fails: &[Fail]) -> Result<Past, NoMemory> {
        let Rest { mut plant } = self;
        plant.set_script(bytes_of(alloc, script.as_bytes())?);
        let plant = failing(alloc, plant, fails)?;
        Ok(Past { plant })
    }
}

impl Past {
    /// What a crash leaves, where open ranges are filled with these bytes, repeated.
    pub fn crash(&self, alloc: Global, fill: &[u8]) -> Result<Rest, NoMemory> {
        let plant = self.plant.crash(alloc, fill)?;
        Ok(Rest { plant })
    }

    pub fn said(&self) -> &[u8] {
        self.plant.said()
    }

    /// Makes a call of the program with these words over traces, and gives its status.
    pub fn call<R: Threads + Wait + Sync>(
        &mut self,
        rt: &R,
        alloc: Global,
        words: &[String],
        lanes: &mut Vec<Lane<MemorySource>>,
    ) -> u8
        requires unread { HaveNoReader lanes.old.items }
    {
        xrc(rt, alloc, words, lanes, &mut self.plant)
    }
}

/// The lanes of sources, without their readers.
pub fn lanes_of(
    alloc: Global,
    sources: Vec<MemorySource>,
) -> Result<Vec<Lane<MemorySource>>, NoMemory>
    ensures unread { IfOk result (λ lanes. HaveNoReader lanes.items) }
{
    let mut lanes = Vec::new(alloc);
    for source in sources {
        lanes.push(Lane::new(source))?;
    }
    Ok(lanes)
}

/// The sources of all traces.
pub fn sources_of(alloc: Global, world: &World) -> Result<Vec<MemorySource>, NoMemory> {
    let mut sources = Vec::new(alloc);
    for (trace, controller) in world.traces.iter().zip(world.input.controllers.iter()) {
        let bytes = trace.bytes.as_slice();
        sources.push(source_of(alloc, bytes, trace.fault, controller.pieces)?)?;
    }
    Ok(sources)
}

fn source_of(
    alloc: Global,
    bytes: &[u8],
    fault: Option<usize>,
    pieces: u32,
) -> Result<MemorySource, NoMemory> {
    let mut marks = Vec::new(alloc);
    if let Some(fault) = fault {
        for _ in 0..fault {
            marks.push(0u8)?;
        }
        marks.push(1)?;
    }
    let marks = bytes_of(alloc, marks.as_slice())?;
    let bytes = bytes_of(alloc, bytes)?;
    MemorySource::make(alloc, bytes, pieces.max(1), marks)
}
