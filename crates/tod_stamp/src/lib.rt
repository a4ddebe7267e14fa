//! Stamps of time, and the names of volumes and sessions, with their texts and fields.
#![tactic(auto)]

mod laws;
mod name;
mod name_error;
mod serial;
mod session;
mod stamp;

pub use laws::{names_read_back, texts_read_back};
pub use name_error::NameError;
pub use serial::Serial;
pub use session::Session;
pub use stamp::{Stamp, StampError};
