//! What a person is told of a command that was not done: for each status one sentence, with what to do.
#![tactic(auto)]

mod commands;
mod last_said;
mod sentence;
mod status_line;
mod table;

pub use last_said::{LastSaid, Overheard};
pub use sentence::Sentence;
