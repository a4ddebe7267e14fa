//! Tests of epochs whose readers wait for each other, and of groups that are formed step by step: the cut of two controllers, and crashes.
#![tactic(auto)]

#[cfg(test)]
mod commands;
#[cfg(test)]
mod courses;
#[cfg(test)]
mod crashes;
#[cfg(test)]
mod cuts;
#[cfg(test)]
mod gates;
#[cfg(test)]
mod lanes;
#[cfg(test)]
mod left;
#[cfg(test)]
mod steps;
#[cfg(test)]
mod traces;

/// Its tests are all that this crate has. It is a program, so that no crate stands on it.
fn main() {}
