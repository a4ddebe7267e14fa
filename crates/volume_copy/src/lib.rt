//! The copy of one volume to another, cylinder by cylinder, which can be stopped at any moment and gone on with.
#![tactic(auto)]

mod begin;
mod copy_job;
mod cylinders;
mod tracks;
mod volumes;

pub use copy_job::CopyJob;
pub use volumes::copy_volume;
