//! The primary volumes of a controller: what their tracks hold at a time, by the controller's own trace.
#![tactic(auto)]

mod held;
mod laws;
mod primary;

pub use laws::batches_make_the_primary;
pub use primary::Primary;
