//! Tests of what no scenario of the program shows: texts, sources, images and their faults, rows, headers, writers and what is handed
//! over.
#![tactic(auto)]

#[cfg(test)]
mod fixtures;
#[cfg(test)]
mod handovers;
#[cfg(test)]
mod pairs;
#[cfg(test)]
mod sources;
#[cfg(test)]
mod texts;
#[cfg(test)]
mod trace_vectors;
#[cfg(test)]
mod traces;
#[cfg(test)]
mod tracks;
#[cfg(test)]
mod writing;

/// Its tests are all that this crate has. It is a program, so that no crate stands on it.
fn main() {}
