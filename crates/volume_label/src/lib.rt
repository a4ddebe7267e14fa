//! The label of a volume device: the serial that it has as a member of pairs, and its cylinders.
#![tactic(auto)]

mod device;
mod label;
mod laws;

pub use device::{read_label, write_label};
pub use label::{Label, need};
pub use laws::labels_read_back;
