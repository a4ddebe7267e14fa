//! The cut core: what readers and a mover may do to a group's state, one event after another, the floors of the controllers, and
//! the cut that a form takes. The theorem on cuts says that in every such history each group has all that it must.
#![tactic(auto)]

mod event;
mod floors;
mod laws;
mod told;

pub use event::Event;
pub use floors::Floors;
pub use laws::{cut_theorem, each_entry_once, least_floors_are_cuts, maps_hold};
