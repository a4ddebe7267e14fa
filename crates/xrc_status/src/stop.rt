ghost use Rattle.std.specs.Prelude.{◌≡◌};
ghost use Rattle.xrc_status.specs.declared.stop.Stop.TheVariants as stops;

use crash_plant::Device;
use std::alloc::{AllocError, AllocFailed};
use tod_stamp::Session;
use xrc_edge::NoMemory;

/// Why a command ended before it was done.
#[derive(Clone, Copy, Debug, PartialEq, Eq)]
pub enum Stop {
    /// There was no memory for something.
    NoMemory,
    /// The words are no command line.
    BadWords,
    /// A call on the console failed.
    ConsoleFault,
    /// The line of this number, counted from 1, is no line of a script.
    BadLine(u32),
    /// A call on this journal failed.
    JournalFault(u16),
    /// A call on the control failed.
    ControlFault,
    /// A call on the state failed.
    StateFault,
    /// The field of this trace's header that begins at this place is cut or breaks its rule.
    BadHeader(u16, u64),
    /// The source of this trace failed within the header.
    HeaderFault(u16),
    /// No session has begun on the site.
    NoSession,
    /// The site is that of this session.
    OtherSession(Session),
    /// A rule is broken at this place of the device.
    Damaged(Device, u64),
    /// A volume failed.
    VolumeFault,
    /// The device needs this many bytes.
    TooSmall(Device, u64),
    /// The journals are not 2 to 16, or the volumes are more than 64. For a run also: there is no volume, or the traces are not as
    /// many as its words say.
    BadSite,
    /// The numbers of the journals' records are spent.
    Spent,
}

impl From<AllocError> for Stop {
    ghost from_gives = { λ _ stop. stop ≡ stops.NoMemory };

    fn from(_error: AllocError) -> Stop {
        Stop::NoMemory
    }
}

impl<T: Drop> From<AllocFailed<T>> for Stop {
    ghost from_gives = { λ _ stop. stop ≡ stops.NoMemory };

    fn from(_error: AllocFailed<T>) -> Stop {
        Stop::NoMemory
    }
}

impl From<NoMemory> for Stop {
    ghost from_gives = { λ _ stop. stop ≡ stops.NoMemory };

    fn from(_error: NoMemory) -> Stop {
        Stop::NoMemory
    }
}
