//! Points that are passed in a row while calls are made, and what a crash may leave meanwhile.
#![tactic(auto)]

mod laws;

pub use laws::{
    Links, Passage, links_go_on, points_are_passed, points_are_told_otherwise, points_stay_passed,
    points_tell_since,
};
