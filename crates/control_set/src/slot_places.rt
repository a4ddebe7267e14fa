//! The places of the slots: each has one half of the control.

use crash_plant::CONTROL_LENGTH;

/// The place of the first slot.
pub(crate) const FIRST: u64 = 0;

/// The place of the second slot.
pub(crate) const SECOND: u64 = CONTROL_LENGTH / 2;
