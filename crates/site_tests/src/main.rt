//! Tests of a site, of what no command reaches: bodies and walks at their ends, a state of all rows, groups turned into images over
//! several volumes, changes of every kind, and lines that are read and said.
#![tactic(auto)]

#[cfg(test)]
mod bodies;
#[cfg(test)]
mod change_vectors;
#[cfg(test)]
mod course_vectors;
#[cfg(test)]
mod entries;
#[cfg(test)]
mod fixtures;
#[cfg(test)]
mod images;
#[cfg(test)]
mod journal_vectors;
#[cfg(test)]
mod lines;
#[cfg(test)]
mod next_lines;
#[cfg(test)]
mod pair_vectors;
#[cfg(test)]
mod point_vectors;
#[cfg(test)]
mod record_vectors;
#[cfg(test)]
mod site_vectors;
#[cfg(test)]
mod state_vectors;
#[cfg(test)]
mod states;

/// Its tests are all that this crate has. It is a program, so that no crate stands on it.
fn main() {}
