//! Tests of plants: what a crash leaves of them, calls that fail, volumes that are lent and worked on side by side, and files.
#![tactic(auto)]

#[cfg(test)]
mod appliers;
#[cfg(test)]
mod calls;
#[cfg(test)]
mod crashes;
#[cfg(test)]
mod files;
#[cfg(test)]
mod fixtures;
#[cfg(test)]
mod loans;
#[cfg(test)]
mod plants;

/// Its tests are all that this crate has. It is a program, so that no crate stands on it.
fn main() {}
