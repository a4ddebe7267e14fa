//! Tests of traces as lines of text: both ways over worked traces, and each refusal.
#![tactic(auto)]

#[cfg(test)]
mod refusals;
#[cfg(test)]
mod vectors;

/// Its tests are all that this crate has. It is a program, so that no crate stands on it.
fn main() {}
