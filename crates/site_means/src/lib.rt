//! What the devices of a site mean: the chosen mark, its state slot, and the walk over the journals.
#![tactic(auto)]

mod examining;
mod laws;
mod lengths;
mod means;
mod reading;
mod rows;
mod site_error;
mod walking;

pub use examining::{check_lengths, examine, read_from_mark, read_mark};
pub use laws::meanings_agree;
pub use lengths::longest_body;
pub use means::Means;
pub use reading::{FirstRead, SiteReading};
pub use site_error::SiteError;
