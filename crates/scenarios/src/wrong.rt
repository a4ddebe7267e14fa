//! What ends the program before all cases are tried.

use std::alloc::{AllocError, AllocFailed};
use xrc_edge::NoMemory;

/// Why the cases of a file can't be worked through.
#[derive(Debug, Drop)]
pub enum Wrong {
    NoMemory,
    /// A line is outside the notation, or names what its case has not.
    Line { number: u64, why: &'static str },
}

impl From<NoMemory> for Wrong {
    fn from(_error: NoMemory) -> Wrong {
        Wrong::NoMemory
    }
}

impl From<AllocError> for Wrong {
    fn from(_error: AllocError) -> Wrong {
        Wrong::NoMemory
    }
}

impl<T: Drop> From<AllocFailed<T>> for Wrong {
    fn from(_error: AllocFailed<T>) -> Wrong {
        Wrong::NoMemory
    }
}
