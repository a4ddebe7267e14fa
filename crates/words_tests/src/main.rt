//! Tests of what a person is told: the sentence of each status, with the values of its line and without, and what is kept of what was
//! written last.
#![tactic(auto)]

#[cfg(test)]
mod kept;
#[cfg(test)]
mod sentences;

/// Its tests are all that this crate has. It is a program, so that no crate stands on it.
fn main() {}
