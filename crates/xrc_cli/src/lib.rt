//! The top call: all that the program does.
#![tactic(auto)]

mod command;
mod generating;
mod labelling;
mod laws;
mod opening;
mod run;
mod saying;
mod unfailing_source;
mod words;

pub use command::xrc;
pub use laws::{copies_hold_primaries, limits_are_fixed, runs_are_complete};
pub use opening::wanted;
pub use words::Wanted;
