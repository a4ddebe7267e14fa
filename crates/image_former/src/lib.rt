//! The entries of a formed group turned into the items of a body.
#![tactic(auto)]

mod forming;
mod links;
mod places;
mod tracks;

pub use forming::form_body;
pub use places::device_of;
