//! The turn under which the readers of the controllers and the mover agree on the group state: each call of a seat is one step of the
//! state, in the order of the tickets that the seats draw.
//!
//! No proof claims that a turn ever comes, that turns come fairly, or that threads run beside each other.
#![tactic(auto)]

mod copying;
mod group;
mod joining;
mod laws;
mod machine;
mod moving;
mod reporting;
mod seats;

pub use group::TurnGroup;
pub use laws::queues_flow;
pub use seats::{MoverSeat, ReaderSeat, SeatList};
