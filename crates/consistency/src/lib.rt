//! What a session's run must bear at each moment: what one line does, and what a crash's images mean then.
//!
//! Points are what its devices mean between two of their records or marks: how one comes from another, which points a choice of images
//! may show at a moment, and which tracks a pair owes by the points that were passed.
#![tactic(auto)]

mod laws;
mod points;

pub use laws::{one_time, replies_are_answers, steps_are_functions};
pub use points::{
    changes_lead_on, commands_lead_on, flags_are_in_time, hits_are_counted, lines_are_answered,
    lines_are_answered_exactly, owed_tracks_are_told, points_are_passed, points_stay_passed,
    replies_are_exact, rows_owe_all, runs_go_on, unhit_courses_are_functions, ways_lead_on,
};
