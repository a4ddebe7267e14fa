//! A controller's sidefile: the writes of its trace that were not yet handed over, run after run.
#![tactic(auto)]

mod hand;
mod laws;
mod look;
mod run;
mod sidefile;
mod turn;

pub use ckd_track::Cause;
pub use hand::{Halt, Hand};
pub use laws::{breaks_are_the_break, handed_are_the_first, runs_are_all};
pub use sidefile::Sidefile;
