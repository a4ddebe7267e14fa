//! The epoch: readers of all controllers beside the mover, which forms, journals and applies group after group, up to a limit.
//!
//! What a crash's choice shows once some deeds of the work for a line are done bears the time that is meant then, by its rows, its tracks
//! and its breaks together. No reader waits for the mover. No proof claims that a turn ever comes, or that readers and mover really run
//! beside each other.
#![tactic(auto)]

mod borne;
mod ends;
mod epochs;
mod gate;
mod lane;
mod laws;
mod logging;
mod moving;
mod pace;
mod reader;
mod reading;
mod round;
mod seat_reporter;
mod seats;
mod settling;
mod spare;

pub use borne::{begun_deeds_bear, done_deeds_stand, records_are_steps, seen_deeds_bear};
pub use ends::{EpochEnd, RoundsEnd};
pub use epochs::epoch;
pub use gate::{FreePass, Gate};
pub use lane::Lane;
pub use laws::{epochs_bear, traces_turn_out_in_turn};
pub use round::rounds;
