//! Threads take turns at one value, the state of a machine, in the order of the tickets that they draw. Each seat keeps the list of
//! its calls, and once all seats are handed in the lists are one run of the machine.
//!
//! No proof claims that a turn ever comes, that turns come fairly, or that threads run beside each other.
#![tactic(auto)]

pub mod plays;
pub mod rule;
pub mod seats;
pub mod table;
pub mod view;
