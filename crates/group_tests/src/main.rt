//! Tests of the state of a group: worked runs, cuts and floors, the room of queues, and each call that may want memory once with
//! ample memory.
#![tactic(auto)]

#[cfg(test)]
mod changes;
#[cfg(test)]
mod cut_vectors;
#[cfg(test)]
mod fixtures;
#[cfg(test)]
mod floors;
#[cfg(test)]
mod held;
#[cfg(test)]
mod history_vectors;
#[cfg(test)]
mod log_vectors;
#[cfg(test)]
mod parts;
#[cfg(test)]
mod queues;
#[cfg(test)]
mod runs;
#[cfg(test)]
mod state_vectors;
#[cfg(test)]
mod trials;
#[cfg(test)]
mod turns;

/// Its tests are all that this crate has. It is a program, so that no crate stands on it.
fn main() {}
