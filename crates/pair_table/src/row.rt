//! Rows of pairs.

use tod_stamp::{Serial, Stamp};
use xrc_edge::{MOST_CONTROL_VOLUMES, MOST_CONTROLS, MOST_CYLINDERS, MOST_NARROW_CYLINDERS};

/// Why a pair is suspended.
#[derive(Clone, Copy, Debug, PartialEq, Eq)]
pub enum SuspendCause {
    /// A command asked for it.
    Command,
    /// The secondary's own volume failed.
    Device,
    /// Another pair's volume failed, where such a fault suspends the whole session.
    Session,
    /// The trace of the pair's controller broke.
    Control,
    /// The volume of another pair of its group failed, where such a fault suspends the group.
    Group,
}

/// How far a pair is.
#[derive(Clone, Copy, Debug, PartialEq, Eq)]
pub enum PairState {
    /// It waits for its copy.
    Pending,
    /// Its copy is under way.
    Copy,
    /// The secondary follows the primary.
    Duplex,
    /// Writes of the primary that are stamped after a time do not come to the secondary.
    Suspended { cause: SuspendCause, since: Stamp },
}

/// A pair of a primary, which is a volume of a controller, and a secondary on a device.
#[derive(Clone, Copy, Debug, PartialEq, Eq)]
pub struct PairRow {
    pub primary: Serial,
    pub secondary: Serial,
    /// Below `MOST_CONTROLS`.
    pub control: u16,
    /// The number that the primary has with its controller, below `MOST_CONTROL_VOLUMES`.
    pub volume: u16,
    /// The number of the secondary's device.
    pub device: u16,
    /// The primary's cylinders, which have `TRACKS_OF_CYLINDER` tracks each: 1 to `MOST_CYLINDERS`.
    pub cylinders: u32,
    pub state: PairState,
    /// The name of its group, if it has one.
    pub group: Option<Serial>,
}

impl SuspendCause {
    ghost use Rattle.std.specs.Prelude.{◌≡◌, ◌≤◌, length};
    ghost use Rattle.pair_table.specs.Rows.{cause_number, cause_of_number};
    ghost use Rattle.pair_table.specs.States.{cause_word, is_by_device, is_by_group};

    /// The number that stands for the cause in the bytes of a row. Each cause has its own.
    pub fn number(self) -> u8
        ensures { result ≡ cause_number self }
    {
        match self {
            SuspendCause::Command => 1,
            SuspendCause::Device => 2,
            SuspendCause::Session => 3,
            SuspendCause::Control => 4,
            SuspendCause::Group => 5,
        }
    }

    /// The cause of a number, if one has it.
    pub(crate) fn of_number(number: u8) -> Option<SuspendCause>
        ensures { result ≡ cause_of_number number }
    {
        match number {
            1 => Some(SuspendCause::Command),
            2 => Some(SuspendCause::Device),
            3 => Some(SuspendCause::Session),
            4 => Some(SuspendCause::Control),
            5 => Some(SuspendCause::Group),
            _ => None,
        }
    }

    /// The word of the cause in reports.
    pub fn word(self) -> &'static [u8]
        ensures text { result.now ≡ cause_word self }
        ensures short { length result.now ≤ 7 }
    {
        match self {
            SuspendCause::Command => b"COMMAND",
            SuspendCause::Device => b"DEVICE",
            SuspendCause::Session => b"SESSION",
            SuspendCause::Control => b"CONTROL",
            SuspendCause::Group => b"GROUP",
        }
    }

    /// Whether the secondary's own volume failed.
    fn is_by_device(self) -> bool
        ensures { result ≡ is_by_device self }
    {
        match self {
            SuspendCause::Device => true,
            _ => false,
        }
    }

    /// Whether the volume of another pair of the group failed.
    fn is_by_group(self) -> bool
        ensures { result ≡ is_by_group self }
    {
        match self {
            SuspendCause::Group => true,
            _ => false,
        }
    }
}

impl PairState {
    ghost use Rattle.std.specs.Prelude.{◌≡◌, IsTrue};
    ghost use Rattle.pair_table.specs.Rows.{is_suspended, is_state};
    ghost use Rattle.pair_table.specs.States.{is_device_suspended, is_duplex, is_group_suspended, is_settled, owes, owes_suspended};

    /// Whether there are a cause and a time.
    pub fn is_suspended(self) -> bool
        ensures suspended { result ≡ is_suspended self }
        ensures valid { IsTrue (is_state self) }
    {
        match self {
            PairState::Suspended { cause: _, since: _ } => true,
            _ => false,
        }
    }

    /// Whether the pair is suspended because the secondary's own volume failed.
    pub fn is_suspended_by_device(self) -> bool
        ensures { result ≡ is_device_suspended self }
    {
        match self {
            PairState::Suspended { cause, since: _ } => cause.is_by_device(),
            _ => false,
        }
    }

    /// Whether the pair is suspended because the volume of another pair of its group failed.
    fn is_suspended_by_group(self) -> bool
        ensures { result ≡ is_group_suspended self }
    {
        match self {
            PairState::Suspended { cause, since: _ } => cause.is_by_group(),
            _ => false,
        }
    }

    /// Whether the pair neither waits for its copy nor is copied.
    pub fn is_settled(self) -> bool
        ensures { result ≡ is_settled self }
    {
        match self {
            PairState::Pending | PairState::Copy => false,
            _ => true,
        }
    }

    /// Whether the secondary follows the primary.
    pub fn is_duplex(self) -> bool
        ensures { result ≡ is_duplex self }
    {
        match self {
            PairState::Duplex => true,
            _ => false,
        }
    }

    /// What the volume of a pair owes more once the pair goes from this state to another: nothing, the tracks that change from now on
    /// (`Some(false)`), or all tracks (`Some(true)`).
    ///
    /// - A pair that is suspended owes all tracks. One that was duplex, and whose own volume hasn't failed, owes only what changes.
    /// - A pair that was suspended already owes all tracks once its own volume fails, and else no more than it did.
    pub fn owes(self, is: PairState) -> Option<bool>
        ensures { result ≡ owes self is }
    {
        match is {
            PairState::Suspended { cause, since: _ } => self.owes_suspended(cause.is_by_device()),
            _ => None,
        }
    }

    /// What the volume of a pair in this state owes more once the pair is suspended, by its own device or not.
    fn owes_suspended(self, by_device: bool) -> Option<bool>
        ensures { result ≡ owes_suspended self (is_duplex self) by_device }
    {
        match self {
            PairState::Pending | PairState::Copy => Some(true),
            PairState::Duplex => Some(by_device),
            PairState::Suspended { cause, since: _ } => {
                if by_device && !cause.is_by_device() {
                    Some(true)
                } else {
                    None
                }
            }
        }
    }
}

/// The greatest number of a controller.
const LAST_CONTROL: u16 = MOST_CONTROLS as u16 - 1;

/// The greatest number of a volume of a controller.
const LAST_VOLUME: u16 = MOST_CONTROL_VOLUMES - 1;

impl PairRow {
    ghost use Rattle.std.specs.Prelude.{◌≡◌};
    ghost use Rattle.pair_table.specs.Rows.{is_narrow, keeps_row_rules};
    ghost use Rattle.pair_table.specs.Tables.{clashes};

    /// Whether controller, volume and cylinders are in their ranges.
    pub(crate) fn keeps_rules(&self) -> bool
        ensures { result ≡ keeps_row_rules self.now }
    {
        self.control <= LAST_CONTROL
            && self.volume <= LAST_VOLUME
            && (1..=MOST_CYLINDERS).contains(&self.cylinders)
    }

    /// Whether version 1 has such a row.
    pub(crate) fn is_narrow(&self) -> bool
        ensures { result ≡ is_narrow self.now }
    {
        self.cylinders <= u32::from(MOST_NARROW_CYLINDERS) && !self.state.is_suspended_by_group()
    }

    /// Whether the two have one primary, one device, or one pair of controller and volume.
    pub(crate) fn clashes(&self, other: &PairRow) -> bool
        ensures { result ≡ clashes self.now other.now }
    {
        self.primary == other.primary
            || self.device == other.device
            || (self.control == other.control && self.volume == other.volume)
    }
}
