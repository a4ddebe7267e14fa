//! What is kept of a volume while items are done to it.

ghost use Rattle.std.specs.Prelude.{◌≡◌, [], false, None, IfOk};

use ckd_track::Slot;
use std::alloc::Global;
use xrc_edge::NoMemory;

/// One volume of a site, on which the items of groups are done. `D` is the volume as it is lent.
#[derive(Drop)]
pub struct VolumeJob<D> {
    /// The volume's number.
    pub device: u16,
    /// The volume, while it is lent.
    pub disk: Option<D>,
    /// A buffer for one of its tracks.
    pub slot: Slot,
    /// Whether a call on the volume failed. It is left alone from then on.
    pub failed: bool,
}

impl<D> VolumeJob<D> {
    /// A job on the volume of this number, which isn't lent yet and hasn't failed. Its slot has no record.
    pub fn make(alloc: Global, device: u16) -> Result<VolumeJob<D>, NoMemory>
        ensures { IfOk result (λ job. job ≡ record { device = device; disk = None; slot = []; failed = false }) }
    {
        let slot = Slot::make(alloc)?;
        Ok(VolumeJob {
            device,
            disk: None,
            slot,
            failed: false,
        })
    }
}
