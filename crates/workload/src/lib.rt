//! A valid input from a number: four traces, the devices of a site and a script for a session over them; and the line that sums up
//! what a run of it left.
#![tactic(auto)]

mod devices;
mod input;
mod laws;
mod layout;
mod script;
mod serials;
mod summing;
mod tally;
mod traces;
mod tracks;

pub use input::generate;
pub use laws::{input_is_fixed, scripts_are_read, traces_are_good};
pub use layout::CONTROLS;
pub use summing::summary;
