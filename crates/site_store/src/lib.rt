//! A site: groups are journaled first, then applied to the volumes, then marked, so that at every moment a crash leaves one
//! meaning. Volumes that fail are told by the records and marks that follow.
//!
//! Deeds are what its calls do: a group is logged, rows change, a mark is made. What a crash leaves at each moment of calls is what some
//! first deeds leave of what it could leave before them. The journal is a ring of data sets; laws say what a walk through it means.
#![tactic(auto)]

mod applying;
mod changing;
mod commanding;
mod deeds;
mod formatting;
mod forming;
mod group_rows;
mod hits;
mod logging;
mod marking;
mod placement;
mod plan;
mod planned;
mod recording;
mod ring;
mod site;
mod starting;
mod store_error;
mod suspending;
mod syncing;
mod writing;

pub use commanding::commands_call_no_device;
pub use deeds::{
    deeds_are_changes, deeds_are_meant, deeds_are_seen, deeds_begin, deeds_go_on,
    deeds_leave_in_turn, entries_alone_change_content, no_deed_is_done, one_deed_is_done,
    times_never_fall,
};
pub use ring::{
    groups_are_meant, marks_are_meant, marks_free_the_ring, records_are_shown,
    switched_groups_are_meant, switches_mean_the_same, walks_are_meant, walks_are_through,
    walks_end,
};
pub use site::Site;
pub use store_error::StoreError;
