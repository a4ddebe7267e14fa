//! The control device: two slots, each a mark behind a gate, and which mark counts.
#![tactic(auto)]

mod choosing;
mod laws;
mod marking;
mod slot;
mod slot_places;
mod spelling;
mod value;

pub use choosing::{ChooseError, choose};
pub use laws::marks_read_back;
pub use marking::mark;
pub use value::Mark;
