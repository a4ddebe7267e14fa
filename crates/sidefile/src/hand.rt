//! What a sidefile hands over.

ghost use Rattle.std.specs.Prelude.{◌≡◌};
ghost use Rattle.sidefile.specs.Halts.{hand_of, halt_of, reached};

use ckd_track::{Batch, Cause};
use tod_stamp::Stamp;

/// What a sidefile hands over at a limit. `Broken` and `NoMemory` are answered again from then on.
#[derive(Debug, Drop)]
pub enum Hand {
    /// The writes of the next run. Every later write of the controller has a stamp above the batch's `upto`.
    Batch(Batch),

    /// No write up to the limit is left.
    AtLimit,

    /// The trace was given up. Its controller reports no write with a stamp above `upto`.
    Broken { cause: Cause, upto: Stamp },

    /// There was no memory.
    NoMemory,
}

/// Why a sidefile hands over no more.
#[derive(Clone, Copy, Debug, PartialEq, Eq)]
pub enum Halt {
    /// The trace was given up.
    Broken { cause: Cause, upto: Stamp },
    /// There was no memory.
    NoMemory,
}

impl Halt {
    /// What is answered from then on.
    pub(crate) fn hand(self) -> Hand
        ensures { result ≡ hand_of self }
    {
        match self {
            Halt::Broken { cause, upto } => Hand::Broken { cause, upto },
            Halt::NoMemory => Hand::NoMemory,
        }
    }
}

impl Hand {
    /// Why no more is handed over after it, if so.
    pub(crate) fn halt(&self) -> Option<Halt>
        ensures { result ≡ halt_of self.now }
    {
        match self {
            Hand::Broken { cause, upto } => Some(Halt::Broken {
                cause: *cause,
                upto: *upto,
            }),
            Hand::NoMemory => Some(Halt::NoMemory),
            Hand::Batch(_) | Hand::AtLimit => None,
        }
    }

    /// The time up to which the controller has reported after it, where `upto` is the time before and `limit` was the limit.
    pub(crate) fn reached(&self, upto: Stamp, limit: Stamp) -> Stamp
        ensures { result.0 ≡ reached upto.0 limit.0 self.now }
    {
        match self {
            Hand::Batch(batch) => batch.upto,
            Hand::AtLimit => limit,
            Hand::Broken { upto, .. } => *upto,
            Hand::NoMemory => upto,
        }
    }
}
