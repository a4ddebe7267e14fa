//! The state device: two slots, each with a level and the rows of a session.
#![tactic(auto)]

mod laws;
mod lengths;
mod reading;
mod slots;
mod spelling;
mod state_error;

pub use laws::states_read_back;
pub use slots::{get, put};
pub use state_error::StateError;
