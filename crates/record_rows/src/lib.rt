//! The rows after a record and after a mark: what a formed group and the failures of volumes make of them, as changes of rows at
//! times, when these may come, and how often each device is hit.
#![tactic(auto)]

mod laws;

pub use laws::{
    changed_rows_make_them, changes_go_on, failed_jobs_are_told, groups_are_told, hits_are_changes,
    hits_are_counted, marks_are_changes, records_are_changes,
};
