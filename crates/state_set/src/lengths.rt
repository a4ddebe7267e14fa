//! The lengths of slots and of what they hold.

use crash_plant::STATE_LENGTH;
use pair_table::{MOST_ROWS, ROW_LENGTH};

/// The length of a slot: each has one half of the state.
pub(crate) const SLOT: u64 = STATE_LENGTH / 2;

/// The bytes before the rows.
pub(crate) const HEAD: usize = 15;

/// The most bytes of a state: those of the most rows.
pub(crate) const LONGEST: usize = HEAD + MOST_ROWS * ROW_LENGTH;
