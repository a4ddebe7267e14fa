ghost use Rattle.std.specs.Prelude.{◌≡◌, ◌≤◌, ◌<◌, ◌^◌, length, vec_len, IsOk, OnErr, OnOk, IfOk};
ghost use Rattle.crash_plant.specs.NewPlants.{IsMade, Resizes, Restarts, SameConsole, SameDevices};
ghost use Rattle.crash_plant.specs.Moments.{Raises};
ghost use Rattle.crash_plant.specs.Calls.{Hears, HearsNothing, IsThere, Listens, WorksOnConsole};
ghost use Rattle.xrc_edge.specs.Causes.{HasCause};

use crate::layout::{CONTROL_LENGTH, STATE_LENGTH};
use crate::plain_disk::PlainDisk;
use crate::{Device, Disk, Heard, Plant};
use std::alloc::Global;
use std::mem;
use xrc_edge::{Bytes, Failed, NoMemory};

/// A volume's place: it is here, or lent, with its length.
#[derive(Drop)]
pub(crate) enum VolumePlace {
    Here(PlainDisk),
    Lent(u64),
}

/// A plant in memory. Each call is done at once, and it keeps no past: its clock stands at 0. The counts of its devices
/// are constantly 0.
#[derive(Drop)]
pub struct PlainPlant {
    pub(crate) control: PlainDisk,
    pub(crate) state: PlainDisk,
    pub(crate) journals: Vec<PlainDisk>,
    pub(crate) volumes: Vec<VolumePlace>,
    pub(crate) script: Bytes,
    pub(crate) next: usize,
    pub(crate) said: Vec<u8>,
    pub(crate) console_faults: u64,
    ghost few_journals: { vec_len journals < 2 ^ 16 },
    ghost few_volumes: { vec_len volumes < 2 ^ 16 },
    ghost next_within: { next ≤ length script },
}

impl PlainPlant {
    ghost use Rattle.std.specs.Prelude.{ℕ, false, [], replicate};
    ghost use Rattle.crash_plant.specs.Devices.{seen_at};
    ghost use Rattle.crash_plant.specs.PlainPlant.{plain_state, disk_bytes, place_bytes, place_is_lent};

    /// A plant of zero bytes.
    pub fn make(
        alloc: Global,
        journals: u16,
        journal_length: u64,
        volumes: u16,
        volume_length: u64,
        script: Bytes,
    ) -> Result<PlainPlant, NoMemory>
        ensures { IfOk result (λ plant. IsMade journals journal_length volumes volume_length script (plain_state plant)) }
    {
        Ok(PlainPlant {
            control: PlainDisk::zeros(alloc, CONTROL_LENGTH)?,
            state: PlainDisk::zeros(alloc, STATE_LENGTH)?,
            journals: PlainPlant::zero_disks(alloc, journals, journal_length)?,
            volumes: PlainPlant::zero_places(alloc, volumes, volume_length)?,
            script,
            next: 0,
            said: Vec::new(alloc),
            console_faults: 0,
        })
    }

    fn zero_disks(alloc: Global, number: u16, size: u64) -> Result<Vec<PlainDisk>, NoMemory>
        ensures number { IfOk result (λ disks. length disks.items ≡ number) }
        ensures zeros { IfOk result (λ disks. (j : ℕ) → j < number → seen_at disk_bytes [] disks.items j ≡ replicate size 0) }
    {
        let mut disks = Vec::with_capacity(alloc, usize::from(number))?;
        for _ in 0..number {
            disks.push(PlainDisk::zeros(alloc, size)?)?;
        }
        Ok(disks)
    }

    fn zero_places(alloc: Global, number: u16, size: u64) -> Result<Vec<VolumePlace>, NoMemory>
        ensures number { IfOk result (λ places. length places.items ≡ number) }
        ensures zeros { IfOk result (λ places. (v : ℕ) → v < number → seen_at place_bytes [] places.items v ≡ replicate size 0) }
        ensures here { IfOk result (λ places. (v : ℕ) → v < number → seen_at place_is_lent false places.items v ≡ false) }
    {
        let mut places = Vec::with_capacity(alloc, usize::from(number))?;
        for _ in 0..number {
            places.push(VolumePlace::Here(PlainDisk::zeros(alloc, size)?))?;
        }
        Ok(places)
    }

    /// Cuts a device, or fills it with zeros.
    #[tactic(auto, using(crate::proofs::Seen::seen_is))]
    pub fn resize(&mut self, _alloc: Global, device: Device, length: u64) -> Result<(), NoMemory>
        requires { IsThere (plain_state self.old) device }
        ensures ok { OnOk result (Resizes device length (plain_state self.old) (plain_state self.new)) }
        ensures err_devices { OnErr result (SameDevices (plain_state self.old) (plain_state self.new)) }
        ensures err_console { OnErr result (SameConsole (plain_state self.old) (plain_state self.new)) }
    {
        match device {
            Device::Control => self.control.resize(length),
            Device::State => self.state.resize(length),
            Device::Journal(number) => self.journals[usize::from(number)].resize(length),
            Device::Volume(number) => match &mut self.volumes[usize::from(number)] {
                VolumePlace::Here(disk) => disk.resize(length),
                VolumePlace::Lent(_) => unreachable!(),
            },
        }
    }

    /// Replaces the bytes that are still to be heard. What is heard is counted from here on.
    pub fn set_script(&mut self, script: Bytes)
        ensures { Restarts script (plain_state self.old) (plain_state self.new) }
    {
        self.script = script;
        self.next = 0;
    }

    pub(crate) fn console_faults(&self) -> u64
        ensures { result ≡ (plain_state self.now).console_faults }
    {
        self.console_faults
    }

    /// The bytes said so far.
    pub fn said(&self) -> &[u8]
        ensures { result.now ≡ (plain_state self.now).said (plain_state self.now).clock }
    {
        self.said.as_slice()
    }
}

#[tactic(auto, using(crate::proofs::Seen::seen_is, crate::proofs::Seen::seen_set, crate::proofs::Seen::seen_set_other, crate::proofs::Seen::seen_set_same))]
impl Plant for PlainPlant {
    ghost use Rattle.crash_plant.specs.PlainPlant.{plain_state};
    ghost use Rattle.std.specs.Prelude.{refl};
    ghost use Rattle.crash_plant.specs.PlainLaws.{plain_length_told};

    type Volume = PlainDisk;

    ghost state = { plain_state };

    ghost tells = { Unit {0} };

    ghost read_is_image = { λ plant d told there. refl };

    ghost has_image = { λ plant d t told part up. ((plain_state plant).bytes d, refl) };

    ghost length_told = { λ plant d told there. plain_length_told plant d there };

    fn journals(&self) -> u16 {
        self.journals.len() as u16
    }

    fn volumes(&self) -> u16 {
        self.volumes.len() as u16
    }

    fn length(&self, device: Device) -> u64 {
        match device {
            Device::Control => self.control.length(),
            Device::State => self.state.length(),
            Device::Journal(number) => self.journals[usize::from(number)].length(),
            Device::Volume(number) => match &self.volumes[usize::from(number)] {
                VolumePlace::Here(disk) => disk.length(),
                VolumePlace::Lent(length) => *length,
            },
        }
    }

    fn read(&mut self, device: Device, place: u64, into: &mut [u8]) -> Result<(), Failed> {
        match device {
            Device::Control => self.control.read(place, into),
            Device::State => self.state.read(place, into),
            Device::Journal(number) => self.journals[usize::from(number)].read(place, into),
            Device::Volume(number) => match &mut self.volumes[usize::from(number)] {
                VolumePlace::Here(disk) => disk.read(place, into),
                VolumePlace::Lent(_) => unreachable!(),
            },
        }
    }

    fn write(&mut self, device: Device, place: u64, bytes: &[u8]) -> Result<(), Failed> {
        match device {
            Device::Control => self.control.write(place, bytes),
            Device::State => self.state.write(place, bytes),
            Device::Journal(number) => self.journals[usize::from(number)].write(place, bytes),
            Device::Volume(number) => match &mut self.volumes[usize::from(number)] {
                VolumePlace::Here(disk) => disk.write(place, bytes),
                VolumePlace::Lent(_) => unreachable!(),
            },
        }
    }

    fn sync(&mut self, _device: Device) -> Result<(), Failed> {
        Ok(())
    }

    fn hear(&mut self) -> Result<Heard, Failed>
        ensures succeeds { IsOk result }
        ensures heard { IfOk result (λ heard. Hears (plain_state self.old) (plain_state self.new) heard) }
        ensures err { OnErr result (HearsNothing (plain_state self.old) (plain_state self.new)) }
        ensures moments { Listens (plain_state self.old) (plain_state self.new) }
        ensures clock { OnOk result (Raises (plain_state self.old).clock (plain_state self.new).clock) }
        ensures only { WorksOnConsole (Unit {0}) (plain_state self.old) (plain_state self.new) }
        ensures cause { HasCause (plain_state self.old).console_faults (plain_state self.new).console_faults result }
    {
        let script = self.script.as_slice();
        if self.next < script.len() {
            let byte = script[self.next];
            self.next += 1;
            Ok(Heard::Byte(byte))
        } else {
            Ok(Heard::End)
        }
    }

    fn say(&mut self, bytes: &[u8]) -> Result<(), Failed> {
        match self.said.extend_from_slice(bytes) {
            Ok(()) => Ok(()),
            Err(_) => {
                self.console_faults = self.console_faults.saturating_add(1);
                Err(Failed)
            }
        }
    }

    fn lend(&mut self, device: u16) -> PlainDisk {
        let length = self.length(Device::Volume(device));
        match mem::replace(
            &mut self.volumes[usize::from(device)],
            VolumePlace::Lent(length),
        ) {
            VolumePlace::Here(disk) => disk,
            VolumePlace::Lent(_) => unreachable!(),
        }
    }

    fn give_back(&mut self, device: u16, volume: PlainDisk) {
        self.volumes[usize::from(device)] = VolumePlace::Here(volume);
    }
}
