//! A third copy of a site: each duplex pair's volume is copied to another device, at the time that the site means.
#![tactic(auto)]

mod copy_error;
mod copying;
mod jobs;
mod outcome;
mod pairs;
mod targets;
mod tools;

pub use copy_error::CopyError;
pub use copying::copy;
pub use outcome::CopyOutcome;
