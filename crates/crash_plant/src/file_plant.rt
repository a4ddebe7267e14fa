ghost use Rattle.std.specs.Prelude.{◌≡◌, ◌<◌, ◌^◌, vec_len, IfOk};
ghost use Rattle.crash_plant.specs.Calls.{NoneLent};
ghost use Rattle.crash_plant.specs.declared.device.Device.{Device};

use crate::console::Console;
use crate::{Device, Disk, FileDisk, Heard, Plant};
use std::alloc::Global;
use std::io::{Read, Write};
use std::mem;
use xrc_edge::{Failed, NoMemory};

/// A volume's place: it is here, or lent, with its length and its count of faults.
#[derive(Drop)]
enum Shelf {
    Here(FileDisk),
    Lent { length: u64, faults: u64 },
}

/// Files, and an input and an output as the console, as a plant. It tells no bytes. What is said is written and flushed at once.
#[derive(Drop)]
pub struct FilePlant<R: Read + Drop, W: Write + Drop> {
    control: FileDisk,
    state: FileDisk,
    journals: Vec<FileDisk>,
    volumes: Vec<Shelf>,
    console: Console<R, W>,
    ghost few_journals: { vec_len journals < 2 ^ 16 },
    ghost few_volumes: { vec_len volumes < 2 ^ 16 },
}

impl Shelf {
    ghost use Rattle.crash_plant.specs.FilePlant.{file_shelf_length, file_shelf_faults, file_shelf_is_lent};
    ghost use Rattle.std.specs.Prelude.{true, map};

    fn row(alloc: Global, disks: Vec<FileDisk>) -> Result<Vec<Shelf>, NoMemory>
        ensures { IfOk result (λ shelves. shelves.items ≡ map (λ disk. Shelf.Here disk) disks.items) }
    {
        Ok(disks.into_iter().map(Shelf::Here).collect(alloc)?)
    }

    // What stands in the volume's place while it is lent.
    fn lent(&self) -> Shelf
        ensures length { file_shelf_length result ≡ file_shelf_length self.now }
        ensures faults { file_shelf_faults result ≡ file_shelf_faults self.now }
        ensures lent { file_shelf_is_lent result ≡ true }
    {
        match self {
            Shelf::Here(disk) => Shelf::Lent {
                length: disk.length(),
                faults: disk.faults(),
            },
            Shelf::Lent { length, faults } => Shelf::Lent {
                length: *length,
                faults: *faults,
            },
        }
    }
}

impl<R: Read + Drop, W: Write + Drop> FilePlant<R, W> {
    ghost use Rattle.crash_plant.specs.FilePlant.{opened_state};

    /// A plant of these disks, and a console of this input and output. No volume is lent.
    pub fn new(
        alloc: Global,
        control: FileDisk,
        state: FileDisk,
        journals: Vec<FileDisk>,
        volumes: Vec<FileDisk>,
        input: R,
        output: W,
    ) -> Result<Self, NoMemory>
        requires few_journals { vec_len journals < 2 ^ 16 }
        requires few_volumes { vec_len volumes < 2 ^ 16 }
        ensures lengths { IfOk result (λ plant. (d : Device) → (⟦<FilePlant<R, W> as Plant>⟧.state plant).lengths d ≡ (opened_state control state journals.items volumes.items).lengths d) }
        ensures faults { IfOk result (λ plant. (d : Device) → (⟦<FilePlant<R, W> as Plant>⟧.state plant).faults d ≡ (opened_state control state journals.items volumes.items).faults d) }
        ensures journals { IfOk result (λ plant. (⟦<FilePlant<R, W> as Plant>⟧.state plant).journals ≡ vec_len journals) }
        ensures volumes { IfOk result (λ plant. (⟦<FilePlant<R, W> as Plant>⟧.state plant).volumes ≡ vec_len volumes) }
        ensures console_faults { IfOk result (λ plant. (⟦<FilePlant<R, W> as Plant>⟧.state plant).console_faults ≡ 0) }
        ensures none_lent { IfOk result (λ plant. NoneLent (⟦<FilePlant<R, W> as Plant>⟧.state plant)) }
    {
        let volumes = Shelf::row(alloc, volumes)?;
        let console = Console::new(alloc, input, output)?;
        Ok(FilePlant {
            control,
            state,
            journals,
            volumes,
            console,
        })
    }
}

#[tactic(auto, using(crate::proofs::Seen::seen_is, crate::proofs::Seen::seen_set, crate::proofs::Seen::seen_set_other, crate::proofs::Seen::seen_set_same))]
impl<R: Read + Drop, W: Write + Drop> Plant for FilePlant<R, W> {
    ghost use Rattle.crash_plant.specs.FilePlant.{file_state};

    type Volume = FileDisk;

    ghost state = { λ p. file_state p.control p.state p.journals.items p.volumes.items p.console.faults };

    ghost tells = { ⊥ };

    ghost read_is_image = { λ plant d none. absurd none };

    ghost has_image = { λ plant d t none. absurd none };

    ghost length_told = { λ plant d none. absurd none };

    fn journals(&self) -> u16 {
        self.journals.len() as u16
    }

    fn volumes(&self) -> u16 {
        self.volumes.len() as u16
    }

    fn length(&self, device: Device) -> u64 {
        match device {
            Device::Control => self.control.length(),
            Device::State => self.state.length(),
            Device::Journal(number) => self.journals[usize::from(number)].length(),
            Device::Volume(number) => match &self.volumes[usize::from(number)] {
                Shelf::Here(disk) => disk.length(),
                Shelf::Lent { length, .. } => *length,
            },
        }
    }

    fn read(&mut self, device: Device, place: u64, into: &mut [u8]) -> Result<(), Failed> {
        match device {
            Device::Control => self.control.read(place, into),
            Device::State => self.state.read(place, into),
            Device::Journal(number) => self.journals[usize::from(number)].read(place, into),
            Device::Volume(number) => match &mut self.volumes[usize::from(number)] {
                Shelf::Here(disk) => disk.read(place, into),
                Shelf::Lent { .. } => unreachable!(),
            },
        }
    }

    fn write(&mut self, device: Device, place: u64, bytes: &[u8]) -> Result<(), Failed> {
        match device {
            Device::Control => self.control.write(place, bytes),
            Device::State => self.state.write(place, bytes),
            Device::Journal(number) => self.journals[usize::from(number)].write(place, bytes),
            Device::Volume(number) => match &mut self.volumes[usize::from(number)] {
                Shelf::Here(disk) => disk.write(place, bytes),
                Shelf::Lent { .. } => unreachable!(),
            },
        }
    }

    fn sync(&mut self, device: Device) -> Result<(), Failed> {
        match device {
            Device::Control => self.control.sync(),
            Device::State => self.state.sync(),
            Device::Journal(number) => self.journals[usize::from(number)].sync(),
            Device::Volume(number) => match &mut self.volumes[usize::from(number)] {
                Shelf::Here(disk) => disk.sync(),
                Shelf::Lent { .. } => unreachable!(),
            },
        }
    }

    fn hear(&mut self) -> Result<Heard, Failed> {
        self.console.hear()
    }

    fn say(&mut self, bytes: &[u8]) -> Result<(), Failed> {
        self.console.say(bytes)
    }

    fn lend(&mut self, device: u16) -> FileDisk {
        let shelf = &mut self.volumes[usize::from(device)];
        let lent = shelf.lent();
        match mem::replace(shelf, lent) {
            Shelf::Here(disk) => disk,
            Shelf::Lent { .. } => unreachable!(),
        }
    }

    fn give_back(&mut self, device: u16, volume: FileDisk) {
        self.volumes[usize::from(device)] = Shelf::Here(volume);
    }
}
