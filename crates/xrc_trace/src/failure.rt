//! Why nothing was written.

use std::alloc::{AllocError, AllocFailed};
use std::{fmt, io};
use trace_lines::{Unread, Unwritten};

/// Why the program wrote nothing, or a part.
#[derive(Debug, Drop)]
pub enum Failure {
    NoMemory,
    /// The words are no command line.
    BadWords,
    /// Standard input or output failed.
    Io(io::Error),
    /// The lines say no trace.
    Unwritten(Unwritten),
    /// The bytes are no trace.
    Unread(Unread),
}

impl Failure {
    /// The status that the program ends with. Each is the status that `xrc` has for the like of it.
    pub fn status(&self) -> u8 {
        match self {
            Failure::NoMemory
            | Failure::Unwritten(Unwritten::NoMemory)
            | Failure::Unread(Unread::NoMemory) => 1,
            Failure::BadWords => 2,
            Failure::Io(_) => 3,
            Failure::Unwritten(Unwritten::Refused(_)) => 4,
            Failure::Unread(_) => 8,
        }
    }
}

impl fmt::Display for Failure {
    fn fmt<W: fmt::Write>(&self, f: &mut fmt::Formatter<W>) -> fmt::Result {
        match self {
            Failure::NoMemory => f.write_str("there is not enough memory: give the program more"),
            Failure::BadWords => f.write_str(
                "these words are no command line: give one of these lists\n    xrc_trace write <LINES >TRACE\n    xrc_trace read <TRACE >LINES",
            ),
            Failure::Io(error) => write!(f, "standard input or output failed: {error}"),
            Failure::Unwritten(why) => write!(f, "{why}"),
            Failure::Unread(why) => write!(f, "{why}"),
        }
    }
}

impl From<AllocError> for Failure {
    fn from(_error: AllocError) -> Failure {
        Failure::NoMemory
    }
}

impl<T: Drop> From<AllocFailed<T>> for Failure {
    fn from(_error: AllocFailed<T>) -> Failure {
        Failure::NoMemory
    }
}

impl From<io::Error> for Failure {
    fn from(error: io::Error) -> Failure {
        Failure::Io(error)
    }
}

impl From<Unwritten> for Failure {
    fn from(why: Unwritten) -> Failure {
        Failure::Unwritten(why)
    }
}

impl From<Unread> for Failure {
    fn from(why: Unread) -> Failure {
        Failure::Unread(why)
    }
}
