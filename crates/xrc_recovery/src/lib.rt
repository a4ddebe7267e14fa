//! The commands that recover, advance, copy and query a site: their order of stops, and what they say of each pair.
#![tactic(auto)]

mod command;
mod copying;
mod lines;
mod query;
mod recovery;
mod reporting;
mod stops;

pub use command::{advance_site, query_site, recover_site};
pub use copying::copy_site;
pub use stops::is_site;
