use std::alloc::{AllocError, AllocFailed};
use std::io;
use xrc_edge::NoMemory;

/// Why the command could not begin.
#[derive(Debug, Drop)]
pub enum Failure {
    NoMemory,
    /// Another program works on the site.
    Locked,
    File(anyhow::Error),
}

impl From<NoMemory> for Failure {
    fn from(_error: NoMemory) -> Failure {
        Failure::NoMemory
    }
}

impl From<AllocError> for Failure {
    fn from(_error: AllocError) -> Failure {
        Failure::NoMemory
    }
}

impl<T: Drop> From<AllocFailed<T>> for Failure {
    fn from(_error: AllocFailed<T>) -> Failure {
        Failure::NoMemory
    }
}

impl From<io::Error> for Failure {
    fn from(error: io::Error) -> Failure {
        Failure::File(error.into())
    }
}

impl From<anyhow::Error> for Failure {
    fn from(error: anyhow::Error) -> Failure {
        Failure::File(error)
    }
}
