//! How an epoch ends.

use group_state::GroupState;
use site_store::StoreError;

/// How an epoch ends.
#[derive(Drop)]
pub enum EpochEnd {
    /// The last cut is the limit, and no row is pending or copying.
    Reached(GroupState),
    /// The site can't go on.
    Store(StoreError),
    NoMemory,
}

/// How the work of an epoch ends.
#[derive(Clone, Copy, Debug, PartialEq, Eq)]
pub enum RoundsEnd {
    /// The last cut is the limit, and no row is pending or copying.
    Reached,
    /// The site can't go on.
    Store(StoreError),
    NoMemory,
}
