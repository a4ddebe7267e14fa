//! The devices and the console of a site, and what a crash may leave of them. Bodies behind gates: a gate is a byte, and it is open
//! exactly where it is 1. What stands behind a gate counts only while the gate is open, so that after a crash a body counts whole
//! or not at all.
#![tactic(auto)]

mod clock;
mod console;
mod device;
mod disk;
mod entry;
mod fail;
mod fail_plan;
mod fail_plans;
mod file_disk;
mod file_plant;
mod gate;
mod layout;
mod left;
mod memory_console;
mod memory_disk;
mod memory_disks;
mod memory_plant;
mod memory_volume;
mod plain_disk;
mod plain_plant;
mod plant;
mod shelf;
mod spot;
mod turn;

pub use device::{Device, Heard};
pub use disk::Disk;
pub use fail::{Fail, FailList};
pub use file_disk::FileDisk;
pub use file_plant::FilePlant;
pub use gate::{put_behind_gate, put_down};
pub use layout::{CONTROL_LENGTH, FRONT, HEADER, STATE_LENGTH, SWITCH};
pub use memory_plant::MemoryPlant;
pub use memory_volume::MemoryVolume;
pub use plain_disk::PlainDisk;
pub use plain_plant::PlainPlant;
pub use plant::Plant;
pub use spot::Spot;
