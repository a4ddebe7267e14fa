//! A session over a script: any lines, over 1 to 16 traces and the devices of a site. Each line brings the session to its time,
//! then its command is done and logged, then its reply is said, and only then is the next byte heard.
//!
//! Laws say what stands again between two epochs: what a command changes in the rows and in the shared state, so that the next epoch may
//! begin.
#![tactic(auto)]

mod answering;
mod beginnings;
mod bringing;
mod carried;
mod endings;
mod joins;
mod kept;
mod labels;
mod maps;
mod numbers;
mod opening;
mod place;
mod replying;
mod resting;
mod rows;
mod run;
mod script;
mod starting;
mod stops;
mod taking;

pub use beginnings::started_sessions_stand;
pub use carried::{commands_may_be_taken, recorded_rows_stand, rows_stand_again, taken_rows_stand};
pub use endings::endings_are_answered_exactly;
pub use joins::{
    epochs_come_to_rest, kept_rows_are_known, lanes_stand_after_changes, limits_rise,
    named_volumes_stay, rests_after_commands,
};
pub use maps::{
    calls_keep_maps, maps_are_owed_after_changes, maps_are_owed_after_epochs,
    maps_are_owed_after_logs, maps_follow_traces,
};
pub use resting::{
    commands_come_again, failures_are_told, points_are_shown_after_changes,
    rows_stand_after_changes, sites_are_idle_again, walks_begin_at_marks,
};
pub use run::SessionRun;
pub use script::run_script;
pub use taking::take_change;
pub use xrc_status::Stop;
