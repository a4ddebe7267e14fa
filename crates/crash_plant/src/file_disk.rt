ghost use Rattle.std.specs.Prelude.{◌≡◌};
ghost use Rattle.xrc_edge.specs.Causes.{HasCause};

use crate::Disk;
use std::fs::File;
use std::io;
use std::os::unix::fs::FileExt;
use xrc_edge::Failed;

/// A file as a disk. It tells no bytes: what a file holds between two calls is in no clause.
#[derive(Drop)]
pub struct FileDisk {
    file: Option<File>,
    length: u64,
    faults: u64,
}

impl FileDisk {
    ghost use Rattle.crash_plant.specs.FilePlant.{file_standing};

    /// The first `length` bytes of a file that is open for reading and writing.
    pub fn new(file: File, length: u64) -> FileDisk
        ensures length { (file_standing result).length_is ≡ length }
        ensures faults { (file_standing result).faults ≡ 0 }
    {
        FileDisk {
            file: Some(file),
            length,
            faults: 0,
        }
    }

    /// A disk of no bytes, and without a file.
    pub fn absent() -> FileDisk
        ensures length { (file_standing result).length_is ≡ 0 }
        ensures faults { (file_standing result).faults ≡ 0 }
    {
        FileDisk {
            file: None,
            length: 0,
            faults: 0,
        }
    }

    pub(crate) fn faults(&self) -> u64
        ensures { result ≡ (file_standing self.now).faults }
    {
        self.faults
    }

    fn noted(&mut self, outcome: io::Result<()>) -> Result<(), Failed>
        ensures same_length { self.new.length ≡ self.old.length }
        ensures cause { HasCause self.old.faults self.new.faults result }
    {
        match outcome {
            Ok(()) => Ok(()),
            Err(_) => {
                self.faults = self.faults.saturating_add(1);
                Err(Failed)
            }
        }
    }
}

impl Disk for FileDisk {
    ghost use Rattle.crash_plant.specs.FilePlant.{file_standing};

    ghost state = { file_standing };

    ghost tells = { ⊥ };

    ghost read_is_image = { λ disk none. absurd none };

    ghost length_told = { λ disk none. absurd none };

    fn length(&self) -> u64 {
        self.length
    }

    fn read(&mut self, place: u64, into: &mut [u8]) -> Result<(), Failed> {
        let outcome = match &self.file {
            Some(file) => file.read_exact_at(into, place),
            None => Ok(()),
        };
        self.noted(outcome)
    }

    fn write(&mut self, place: u64, bytes: &[u8]) -> Result<(), Failed> {
        let outcome = match &self.file {
            Some(file) => file.write_all_at(bytes, place),
            None => Ok(()),
        };
        self.noted(outcome)
    }

    fn sync(&mut self) -> Result<(), Failed> {
        let outcome = match &self.file {
            Some(file) => file.sync_data(),
            None => Ok(()),
        };
        self.noted(outcome)
    }
}
