//! Logs of the shared state's calls, where each reader's calls are fed by its trace.
//!
//! A lane's feed has read so much of its controller's trace, and reports it step by step. What readers report of tracks and what the other
//! side holds of them stay together in every call. So the deeds that a mover keeps of its calls bear a time.
#![tactic(auto)]

mod feed;
mod feeds;
mod logs;
mod reading;
mod reporter;
mod told;

pub use feed::Feed;
pub use feeds::{
    calls_break_below, calls_go_up_to_limits, calls_read_in_turn, calls_report_controls,
    first_feed, read_tracks, steps_read_on,
};
pub use logs::{
    breaks_come, later_breaks_are_to_come, live_entries_in_turn, logs_bear,
    shown_breaks_are_the_traces, times_rise,
};
pub use reading::Reading;
pub use reporter::Reporter;
pub use told::{done_is_told, steps_keep_told};
