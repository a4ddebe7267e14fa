ghost use Rattle.std.specs.Prelude.{◌≡◌, ◌≢◌, ◌<◌, ◌≤◌, ◌+◌, ℕ, [], length, slice_range, OnErr, OnOk, IfOk, IsOk};
ghost use Rattle.crash_plant.specs.Bytes.{patched};
ghost use Rattle.crash_plant.specs.Pasts.{Does};
ghost use Rattle.crash_plant.specs.Devices.{seen_at, seen_of};
ghost use Rattle.crash_plant.specs.FreshDisks.{absent, fresh_disk, fresh_of, fresh_place};
ghost use Rattle.crash_plant.specs.Remains.{disk_remains, nothing, place_remains, remains_here, remains_of};
ghost use Rattle.crash_plant.specs.Shelves.{IsLentAs, IsNow, ShelfAlike, ShelfNotes, ShelfRoom, last_done, lent_at, shelf_bytes, shelf_length};
ghost use Rattle.crash_plant.specs.declared.device.Device.{Device};
ghost use Rattle.crash_plant.specs.declared.device.Device.TheVariants.{Volume};
ghost use Rattle.crash_plant.specs.declared.shelf.Shelf.TheVariants.{Here};

use crate::entry::Done;
use crate::memory_disk::MemoryDisk;
use crate::plain_plant::VolumePlace;
use crate::shelf::Shelf;
use crate::{Device, PlainDisk, PlainPlant};
use std::alloc::Global;
use std::mem;
use std::snapshot::Snapshot;
use xrc_edge::{Bytes, NoMemory};

/// The disks of a plant, each with its past.
#[derive(Drop)]
pub(crate) struct MemoryDisks {
    control: MemoryDisk,
    state: MemoryDisk,
    journals: Vec<MemoryDisk>,
    volumes: Vec<Shelf>,
}

fn with_pasts(alloc: Global, plain: Vec<PlainDisk>) -> Result<Vec<MemoryDisk>, NoMemory>
    ensures number { IfOk result (λ disks. length disks.items ≡ length plain.items) }
    ensures fresh { IfOk result (λ disks. (j : ℕ) → j < length plain.items → seen_at (λ disk. fresh_of (Here disk)) absent disks.items j ≡ seen_at fresh_disk absent plain.items j) }
{
    let mut disks = Vec::with_capacity(alloc, plain.len())?;
    for disk in plain {
        disks.push(MemoryDisk::new(alloc, disk))?;
    }
    Ok(disks)
}

fn shelf_of(alloc: Global, place: VolumePlace) -> Shelf
    ensures { fresh_of result ≡ fresh_place place }
{
    match place {
        VolumePlace::Here(disk) => Shelf::Here(MemoryDisk::new(alloc, disk)),
        VolumePlace::Lent(length) => Shelf::Away(length),
    }
}

fn shelves(alloc: Global, places: Vec<VolumePlace>) -> Result<Vec<Shelf>, NoMemory>
    ensures number { IfOk result (λ shelves. length shelves.items ≡ length places.items) }
    ensures fresh { IfOk result (λ shelves. (v : ℕ) → v < length places.items → seen_at fresh_of absent shelves.items v ≡ seen_at fresh_place absent places.items v) }
{
    let mut shelves = Vec::with_capacity(alloc, places.len())?;
    for place in places {
        shelves.push(shelf_of(alloc, place))?;
    }
    Ok(shelves)
}

fn disk_left(alloc: Global, disk: &MemoryDisk, choice: &[u8]) -> Result<PlainDisk, NoMemory>
    ensures { IfOk result (λ left. disk_remains left ≡ remains_here choice.now disk.now) }
{
    disk.left(alloc, choice)
}

fn place_left(alloc: Global, shelf: &Shelf, choice: &[u8]) -> Result<VolumePlace, NoMemory>
    ensures { IfOk result (λ place. place_remains place ≡ remains_of choice.now shelf.now) }
{
    match shelf {
        Shelf::Here(disk) => Ok(VolumePlace::Here(disk_left(alloc, disk, choice)?)),
        Shelf::Lent { length, .. } => Ok(VolumePlace::Lent(*length)),
        Shelf::Away(length) => Ok(VolumePlace::Lent(*length)),
    }
}

fn disks_left(
    alloc: Global,
    disks: &[MemoryDisk],
    choice: &[u8],
) -> Result<Vec<PlainDisk>, NoMemory>
    ensures number { IfOk result (λ left. length left.items ≡ length disks.now) }
    ensures remains { IfOk result (λ left. (j : ℕ) → j < length disks.now → seen_at disk_remains nothing left.items j ≡ seen_at (remains_here choice.now) nothing disks.now j) }
{
    let mut left = Vec::with_capacity(alloc, disks.len())?;
    for i in 0..disks.len() {
        left.push(disk_left(alloc, &disks[i], choice)?)?;
    }
    Ok(left)
}

fn places_left(
    alloc: Global,
    shelves: &[Shelf],
    choice: &[u8],
) -> Result<Vec<VolumePlace>, NoMemory>
    ensures number { IfOk result (λ left. length left.items ≡ length shelves.now) }
    ensures remains { IfOk result (λ left. (v : ℕ) → v < length shelves.now → seen_at place_remains nothing left.items v ≡ seen_at (remains_of choice.now) nothing shelves.now v) }
{
    let mut left = Vec::with_capacity(alloc, shelves.len())?;
    for i in 0..shelves.len() {
        left.push(place_left(alloc, &shelves[i], choice)?)?;
    }
    Ok(left)
}

fn lent_shelf(disk: &MemoryDisk, at: u64) -> Shelf
    ensures { IsLentAs at disk.now result }
{
    Shelf::Lent {
        length: disk.length(),
        at,
        was: Snapshot::of(disk),
    }
}

impl MemoryDisks {
    ghost use Rattle.crash_plant.specs.MemoryDisk.{held, past_of, first_held};
    ghost use Rattle.crash_plant.specs.MemoryDisks.{IsHome, view, journals_of, volumes_of};

    /// The disks of a plain plant, from now on with a past.
    pub(crate) fn make(
        alloc: Global,
        control: PlainDisk,
        state: PlainDisk,
        journals: Vec<PlainDisk>,
        volumes: Vec<VolumePlace>,
    ) -> Result<MemoryDisks, NoMemory>
        ensures fresh { IfOk result (λ disks. (d : Device) → fresh_of (view disks d) ≡ seen_of fresh_disk fresh_place absent control state journals.items volumes.items d) }
        ensures journals { IfOk result (λ disks. journals_of disks ≡ length journals.items) }
        ensures volumes { IfOk result (λ disks. volumes_of disks ≡ length volumes.items) }
    {
        let journals = with_pasts(alloc, journals)?;
        let volumes = shelves(alloc, volumes)?;
        Ok(MemoryDisks {
            control: MemoryDisk::new(alloc, control),
            state: MemoryDisk::new(alloc, state),
            journals,
            volumes,
        })
    }

    pub(crate) fn journals(&self) -> u16
        requires { journals_of self.now < 65536 }
        ensures { result ≡ journals_of self.now }
    {
        self.journals.len() as u16
    }

    pub(crate) fn volumes(&self) -> u16
        requires { volumes_of self.now < 65536 }
        ensures { result ≡ volumes_of self.now }
    {
        self.volumes.len() as u16
    }

    /// A disk that is here.
    pub(crate) fn disk(&self, device: Device) -> &MemoryDisk
        requires { IsHome self.now device }
        ensures { IsNow (view self.now device) result.now }
    {
        match device {
            Device::Control => &self.control,
            Device::State => &self.state,
            Device::Journal(number) => &self.journals[usize::from(number)],
            Device::Volume(number) => match &self.volumes[usize::from(number)] {
                Shelf::Here(disk) => disk,
                Shelf::Lent { .. } => unreachable!(),
                Shelf::Away(_) => unreachable!(),
            },
        }
    }

    /// Writes bytes to a disk by a call that does this at a moment. Without memory for the record nothing is done.
    pub(crate) fn note(
        &mut self,
        device: Device,
        now: u64,
        done: Done,
        place: u64,
        bytes: &[u8],
    ) -> Result<(), NoMemory>
        requires there { IsHome self.old device }
        requires later { last_done (view self.old device) < now }
        requires range { place + length bytes.now ≤ shelf_length (view self.old device) }
        requires does { Does done (shelf_bytes (view self.old device)) (patched place bytes.now (shelf_bytes (view self.old device))) }
        ensures ok { OnOk result (ShelfNotes now done place bytes.now (view self.old device) (view self.new device)) }
        ensures err { OnErr result (ShelfAlike (view self.old device) (view self.new device)) }
        ensures room { ShelfRoom (view self.old device) → IsOk result }
        ensures others { (d : Device) → d ≢ device → view self.new d ≡ view self.old d }
        ensures journals { journals_of self.new ≡ journals_of self.old }
        ensures volumes { volumes_of self.new ≡ volumes_of self.old }
    {
        match device {
            Device::Control => self.control.note(now, done, place, bytes),
            Device::State => self.state.note(now, done, place, bytes),
            Device::Journal(number) => self.journals[usize::from(number)].note(
                now, done, place, bytes,
            ),
            Device::Volume(number) => match &mut self.volumes[usize::from(number)] {
                Shelf::Here(disk) => disk.note(now, done, place, bytes),
                Shelf::Lent { .. } => unreachable!(),
                Shelf::Away(_) => unreachable!(),
            },
        }
    }

    /// A plain plant of what one crash leaves, where a choice fills the open ranges. Nothing is heard or said on it.
    pub(crate) fn left(&self, alloc: Global, choice: &[u8]) -> Result<PlainPlant, NoMemory>
        requires few_journals { journals_of self.now < 65536 }
        requires few_volumes { volumes_of self.now < 65536 }
        ensures remains { IfOk result (λ plant. (d : Device) → seen_of disk_remains place_remains nothing plant.control plant.state plant.journals.items plant.volumes.items d ≡ remains_of choice.now (view self.now d)) }
        ensures journals { IfOk result (λ plant. length plant.journals.items ≡ journals_of self.now) }
        ensures volumes { IfOk result (λ plant. length plant.volumes.items ≡ volumes_of self.now) }
        ensures script { IfOk result (λ plant. plant.script ≡ []) }
        ensures next { IfOk result (λ plant. plant.next ≡ 0) }
        ensures said { IfOk result (λ plant. plant.said.items ≡ []) }
        ensures faults { IfOk result (λ plant. plant.console_faults ≡ 0) }
    {
        Ok(PlainPlant {
            control: disk_left(alloc, &self.control, choice)?,
            state: disk_left(alloc, &self.state, choice)?,
            journals: disks_left(alloc, &self.journals, choice)?,
            volumes: places_left(alloc, &self.volumes, choice)?,
            script: Bytes::make(alloc),
            next: 0,
            said: Vec::new(alloc),
            console_faults: 0,
        })
    }

    /// Takes out a volume that is lent at a tick. What it was is remembered.
    pub(crate) fn lend(&mut self, device: u16, at: u64) -> MemoryDisk
        requires { IsHome self.old (Volume device) }
        ensures was { IsNow (view self.old (Volume device)) result }
        ensures lent { IsLentAs at result (view self.new (Volume device)) }
        ensures others { (d : Device) → d ≢ Volume device → view self.new d ≡ view self.old d }
        ensures journals { journals_of self.new ≡ journals_of self.old }
        ensures volumes { volumes_of self.new ≡ volumes_of self.old }
    {
        let shelf = lent_shelf(self.disk(Device::Volume(device)), at);
        match mem::replace(&mut self.volumes[usize::from(device)], shelf) {
            Shelf::Here(disk) => disk,
            Shelf::Lent { .. } => unreachable!(),
            Shelf::Away(_) => unreachable!(),
        }
    }

    /// The tick at which a volume was lent.
    pub(crate) fn lent_at(&self, device: u16) -> u64
        requires { device < volumes_of self.now }
        ensures { result ≡ lent_at (view self.now (Volume device)) }
    {
        match &self.volumes[usize::from(device)] {
            Shelf::Lent { at, .. } => *at,
            Shelf::Here(_) => 0,
            Shelf::Away(_) => 0,
        }
    }

    /// Puts a volume in its place.
    pub(crate) fn put(&mut self, device: u16, disk: MemoryDisk)
        requires { device < volumes_of self.old }
        ensures here { IsNow (view self.new (Volume device)) disk }
        ensures others { (d : Device) → d ≢ Volume device → view self.new d ≡ view self.old d }
        ensures journals { journals_of self.new ≡ journals_of self.old }
        ensures volumes { volumes_of self.new ≡ volumes_of self.old }
    {
        self.volumes[usize::from(device)] = Shelf::Here(disk);
    }
}
