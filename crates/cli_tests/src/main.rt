//! Tests of the top call over sources that wait for each other.
#![tactic(auto)]

#[cfg(test)]
mod readers;

/// Its tests are all that this crate has. It is a program, so that no crate stands on it.
fn main() {}
