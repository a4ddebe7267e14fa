//! The lines of a script, heard one after another and no byte too far, and what they ask.
#![tactic(auto)]

mod asking;
mod hearing;
mod line_end;
mod line_text;
mod next;

pub use line_text::LineText;
pub use next::{Next, next_line};
