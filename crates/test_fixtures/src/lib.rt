//! Plants in memory and calls at places of a device, for the tests of several crates. A test may stop where a call can't be
//! made, and a library may not: so each call here says whether it could.
#![tactic(auto)]

mod made;
mod places;

pub use made::{bytes_of, fail_at, failing, resized, zeros};
pub use places::{content, is_there, is_within, put};
