use crash_plant::Spot;
use tod_stamp::{Session, Stamp};

/// What counts from now on: from where the journal's records are to be read, and which state slot has the rows.
#[derive(Clone, Copy, Debug, PartialEq, Eq)]
pub struct Mark {
    /// The mark's own number. It goes up by one from mark to mark, from 1 to 2^64 - 2.
    pub number: u64,
    pub session: Session,
    /// The state slot that counts, 0 or 1.
    pub state_slot: u8,
    /// The spot of the next journal record.
    pub at: Spot,
    /// The time up to which all records are after the mark, at least 1.
    pub time: Stamp,
    /// Whether the session has ended.
    pub ended: bool,
}
