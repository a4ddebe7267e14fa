//! What an operator is told: the report of a session, and the replies to its commands.
#![tactic(auto)]

mod lines;
mod refusals;
mod replies;
mod reports;

pub use replies::reply;
pub use reports::{ControlList, report};
