//! Recovery of one site: what the devices mean is put down on the volumes of the duplex pairs, which are labelled as their primaries
//! or keep their labels.
#![tactic(auto)]

mod finishing;
mod labelling;
mod meaning;
mod outcome;
mod recover_error;
mod recovering;
mod redoing;
mod sides;
mod volumes;

pub use labelling::Labelling;
pub use meaning::{examine_session, read_recoverable, read_session};
pub use outcome::Outcome;
pub use recover_error::RecoverError;
pub use recovering::{advance, recover, redo};
pub use sides::Tools;
