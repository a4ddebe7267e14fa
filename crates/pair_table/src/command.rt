//! The commands of a session on its pairs, and their answers.

ghost use Rattle.std.specs.Prelude.{◌≡◌};
ghost use Rattle.pair_table.specs.Commands.{is_chosen, is_to_suspend};

use crate::Level;
use crate::row::PairRow;
use tod_stamp::Serial;
use xrc_edge::{List, NoMemory};

/// Numbers of devices, in any order.
pub type DeviceList = List<u16>;

/// The pairs that a command speaks of.
#[derive(Clone, Copy, Debug, PartialEq, Eq)]
pub enum Choice {
    /// The pair of this primary and this secondary.
    One { primary: Serial, secondary: Serial },
    /// All pairs of the session.
    All,
}

impl Choice {
    /// Whether the row is chosen.
    pub(crate) fn names(&self, row: &PairRow) -> bool
        ensures { result ≡ is_chosen self.now row.now }
    {
        match self {
            Choice::One { primary, secondary } => {
                row.primary == *primary && row.secondary == *secondary
            }
            Choice::All => true,
        }
    }

    /// Whether the row is chosen and isn't suspended.
    pub(crate) fn suspends(&self, row: &PairRow) -> bool
        ensures { result ≡ is_to_suspend self.now row.now }
    {
        self.names(row) && !row.state.is_suspended()
    }
}

/// What a line of a script asks for, under the names of the manual of XRC.
#[derive(Clone, Copy, Debug, PartialEq, Eq)]
pub enum Command {
    /// XSTART.
    Start {
        level: Level,
    },
    /// XADDPAIR, with the name of the pair's group, if it gets one.
    AddPair {
        primary: Serial,
        secondary: Serial,
        group: Option<Serial>,
    },
    /// XDELPAIR.
    DelPair(Choice),
    /// XSUSPEND.
    Suspend(Choice),
    /// XQUERY.
    Query,
    /// XEND.
    End,
}

/// Why a command is refused. The answers are numbered from 1 on in this order.
#[derive(Clone, Copy, Debug, PartialEq, Eq)]
pub enum Refusal {
    /// The session isn't started, or the command names another.
    NoSession,
    /// The session is started already.
    SessionExists,
    /// No trace names the primary.
    NoPrimary,
    /// No device had the secondary's label when the session was started.
    NoSecondary,
    /// The secondary is another pair's.
    SecondaryInUse,
    /// The primary has a pair that isn't suspended.
    AlreadyPaired,
    /// The secondary has fewer tracks than the primary, which has so many.
    TooSmall(u32),
    /// The primary's pair has another secondary.
    OtherSecondary,
    /// There is no such pair.
    NotPaired,
    /// The session was ended.
    Ended,
    /// The trace of the controller with this number broke.
    ControlBroken(u16),
}

/// What an accepted command does to the rows. A row is named by its device.
#[derive(Debug, Drop)]
pub enum Change {
    Nothing,
    Started,
    Added(u16),
    Resumed(u16),
    Gone(DeviceList),
    Suspended(DeviceList),
    Ended,
}

/// Why a command was not done.
#[derive(Clone, Copy, Debug, PartialEq, Eq)]
pub enum CommandError {
    Refused(Refusal),
    NoMemory,
}

impl From<NoMemory> for CommandError {
    ghost use Rattle.std.specs.Prelude.{◌≡◌};
    ghost use Rattle.pair_table.specs.declared.command.CommandError.TheVariants as errors;

    ghost from_gives = { λ _ e. e ≡ errors.NoMemory };

    fn from(_error: NoMemory) -> CommandError {
        CommandError::NoMemory
    }
}
