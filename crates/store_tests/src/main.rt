//! Tests of a site of several volumes: groups that are logged, applied and marked, and marks that a record needs.
#![tactic(auto)]

#[cfg(test)]
mod ample_memory;
#[cfg(test)]
mod calls;
#[cfg(test)]
mod changes;
#[cfg(test)]
mod crashes;
#[cfg(test)]
mod entries;
#[cfg(test)]
mod fixtures;
#[cfg(test)]
mod groups;
#[cfg(test)]
mod ring;
#[cfg(test)]
mod switched_rows;

/// Its tests are all that this crate has. It is a program, so that no crate stands on it.
fn main() {}
