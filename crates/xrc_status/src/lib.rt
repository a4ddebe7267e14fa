//! How a command ends that was not done: its stops, their statuses, and the line that is said last.
#![tactic(auto)]

mod line;
mod say;
mod status;
mod stop;

pub use line::TextLine;
pub use say::say_text;
pub use status::say_stop;
pub use stop::Stop;
