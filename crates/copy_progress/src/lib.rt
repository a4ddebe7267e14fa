//! How far the copy of a volume has come: two slots between the label and the first track of its target, each a progress behind a gate.
#![tactic(auto)]

mod choosing;
mod claim;
mod laws;
mod layout;
mod noting;
mod progress;
mod slot;
mod spelling;
mod vectors;

pub use claim::{Claim, done};
pub use laws::clearing_does_nothing;
pub use noting::{clear_progress, sync_and_note};
pub use progress::Progress;
pub use vectors::worked_progress_is_done;
