//! Tests of generated inputs: their traces and devices, and the line that sums up a site as a run would leave it.
#![tactic(auto)]

#[cfg(test)]
mod finished;
#[cfg(test)]
mod inputs;
#[cfg(test)]
mod summaries;

/// Its tests are all that this crate has. It is a program, so that no crate stands on it.
fn main() {}
