ghost use Rattle.std.specs.Prelude.{◌≡◌, ◌≤◌, ◌+◌, length, replicate, slice_range, OnErr, OnOk, IfOk};
ghost use Rattle.crash_plant.specs.Bytes.{patched, resized};

use crate::Disk;
use std::alloc::Global;
use xrc_edge::{Failed, NoMemory};

/// Bytes in memory as a disk. Each call is done at once, and it keeps no past: its clock stands at 0.
#[derive(Drop)]
pub struct PlainDisk {
    pub(crate) bytes: Vec<u8>,
}

impl PlainDisk {
    /// A disk of so many zero bytes.
    pub(crate) fn zeros(alloc: Global, length: u64) -> Result<PlainDisk, NoMemory>
        ensures { IfOk result (λ disk. disk.bytes.items ≡ replicate length 0) }
    {
        let bytes = vec![in alloc; 0u8; length as usize]?;
        Ok(PlainDisk { bytes })
    }

    /// Cuts the disk, or fills it with zeros.
    pub(crate) fn resize(&mut self, length: u64) -> Result<(), NoMemory>
        ensures ok { OnOk result (self.new.bytes.items ≡ resized length self.old.bytes.items) }
        ensures err { OnErr result (self.new.bytes.items ≡ self.old.bytes.items) }
    {
        self.bytes.resize(length as usize, 0)?;
        Ok(())
    }
}

pub(crate) fn copy_out(bytes: &[u8], place: usize, into: &mut [u8])
    requires { place + length into.old ≤ length bytes.now }
    ensures { into.new ≡ slice_range bytes.now place (place + length into.old) }
{
    into.copy_from_slice(&bytes[place..place + into.len()]);
}

pub(crate) fn patch(bytes: &mut [u8], place: usize, with: &[u8])
    requires { place + length with.now ≤ length bytes.old }
    ensures { bytes.new ≡ patched place with.now bytes.old }
{
    bytes[place..place + with.len()].copy_from_slice(with);
}

#[tactic(auto, using(crate::proofs::Patches::patched_torn))]
impl Disk for PlainDisk {
    ghost use Rattle.crash_plant.specs.PlainPlant.{disk_standing};
    ghost use Rattle.std.specs.Prelude.{refl};

    ghost state = { disk_standing };

    ghost tells = { Unit {0} };

    ghost read_is_image = { λ disk told. refl };

    ghost length_told = { λ disk told. refl };

    fn length(&self) -> u64 {
        self.bytes.len() as u64
    }

    fn read(&mut self, place: u64, into: &mut [u8]) -> Result<(), Failed> {
        copy_out(&self.bytes, place as usize, into);
        Ok(())
    }

    fn write(&mut self, place: u64, bytes: &[u8]) -> Result<(), Failed> {
        patch(&mut self.bytes, place as usize, bytes);
        Ok(())
    }

    fn sync(&mut self) -> Result<(), Failed> {
        Ok(())
    }
}
