use ckd_bridge::Stop;
use std::alloc::{AllocError, AllocFailed};
use std::io;
use xrc_edge::NoMemory;

/// Why a command was not done.
#[derive(Debug, Drop)]
pub enum Failure {
    Words,
    Stop(Stop),
    File(anyhow::Error),
}

impl From<Stop> for Failure {
    fn from(stop: Stop) -> Failure {
        Failure::Stop(stop)
    }
}

impl From<NoMemory> for Failure {
    fn from(_error: NoMemory) -> Failure {
        Failure::Stop(Stop::NoMemory)
    }
}

impl From<AllocError> for Failure {
    fn from(_error: AllocError) -> Failure {
        Failure::Stop(Stop::NoMemory)
    }
}

impl<T: Drop> From<AllocFailed<T>> for Failure {
    fn from(_error: AllocFailed<T>) -> Failure {
        Failure::Stop(Stop::NoMemory)
    }
}

impl From<io::Error> for Failure {
    fn from(error: io::Error) -> Failure {
        Failure::File(error.into())
    }
}

impl From<anyhow::Error> for Failure {
    fn from(error: anyhow::Error) -> Failure {
        Failure::File(error)
    }
}
