//! What a simulation draws: controllers with what their hosts wrote, devices, and a script.

use crate::track::{Effect, Record};

/// The heads of a cylinder.
pub const HEADS: u16 = 15;

/// A track of a primary as it stands before all writes.
#[derive(Drop)]
pub struct Base {
    pub track: u16,
    pub records: Vec<Record>,
}

/// A volume of a controller. Those of all controllers are numbered in one row, and the number is its serial.
#[derive(Drop)]
pub struct Primary {
    pub cylinders: u16,
    /// In rising order of tracks.
    pub bases: Vec<Base>,
}

impl Primary {
    pub fn tracks(&self) -> u32 {
        u32::from(self.cylinders) * u32::from(HEADS)
    }
}

#[derive(Drop)]
pub struct Write {
    /// Among all primaries.
    pub primary: u16,
    pub track: u16,
    pub effect: Effect,
}

/// What a controller reports at a time: a write, or that it is idle.
#[derive(Drop)]
pub struct Entry {
    pub stamp: u64,
    pub write: Option<Write>,
}

/// What stands in a trace after its entries, or happens there.
#[derive(Clone, Copy, PartialEq, Eq)]
pub enum End {
    Clean,
    /// A byte that begins no entry.
    BadTag,
    /// An entry with an earlier stamp.
    Falling,
    /// So many bytes of its last entry are missing.
    Cut { missing: u16 },
    /// A pull fails once so many thousandths of the bytes after the header were given.
    Fault { share: u32 },
}

#[derive(Drop)]
pub struct Controller {
    /// The number of its first primary.
    pub first: u16,
    pub primaries: Vec<Primary>,
    pub entries: Vec<Entry>,
    pub end: End,
    /// At most so many bytes come at once.
    pub pieces: u32,
}

/// A device that may become a secondary. Its serial is a number, as a primary's.
#[derive(Clone, Copy)]
pub struct Volume {
    pub serial: u16,
    /// The cylinders of its label; None where it has no label.
    pub label: Option<u16>,
    pub cylinders: u16,
    /// What each other byte of it is.
    pub fill: u8,
}

impl Volume {
    /// The serial and the cylinders of a valid label.
    pub fn valid_label(&self) -> Option<(u16, u16)> {
        match self.label {
            Some(cylinders) if cylinders >= 1 && cylinders <= self.cylinders => {
                Some((self.serial, cylinders))
            }
            _ => None,
        }
    }
}

#[derive(Clone, Copy, Debug, PartialEq, Eq)]
pub enum Level {
    Volume,
    Session,
}

#[derive(Clone, Copy, Debug, PartialEq, Eq)]
pub struct Pair {
    pub primary: u16,
    pub secondary: u16,
}

#[derive(Clone, Copy, Debug, PartialEq, Eq)]
pub enum Target {
    One(Pair),
    All,
}

#[derive(Clone, Copy, Debug, PartialEq, Eq)]
pub enum Command {
    /// None is a start without a level.
    Start(Option<Level>),
    Add(Pair),
    Delete(Target),
    Suspend(Target),
    Query,
    End,
}

/// A line of the script.
#[derive(Clone, Copy)]
pub struct Line {
    pub time: u64,
    /// Whether it names another session.
    pub is_other: bool,
    pub command: Command,
    /// Whether its last character is missing, so that it is outside the grammar.
    pub is_cut: bool,
}

#[derive(Drop)]
pub struct Input {
    pub controllers: Vec<Controller>,
    pub volumes: Vec<Volume>,
    pub journals: u16,
    /// What each byte of the journals is before the run.
    pub fill: u8,
    pub lines: Vec<Line>,
    /// Whether the last line has its line feed.
    pub has_last_feed: bool,
}

impl Input {
    /// The controller of a primary.
    pub fn controller_of(&self, primary: u16) -> Option<(usize, &Controller)> {
        self.controllers.iter().enumerate().find(|(_, controller)| {
            let place = primary.checked_sub(controller.first);
            place.is_some_and(|place| usize::from(place) < controller.primaries.len())
        })
    }

    pub fn primary(&self, number: u16) -> Option<&Primary> {
        let (_, controller) = self.controller_of(number)?;
        let place = number.checked_sub(controller.first)?;
        controller.primaries.get(usize::from(place))
    }

    /// The device of a secondary's serial and the cylinders of its label. Of several the first counts.
    pub fn device(&self, secondary: u16) -> Option<(u16, u16)> {
        for (number, volume) in self.volumes.iter().enumerate() {
            if let Some((serial, cylinders)) = volume.valid_label() {
                if serial == secondary {
                    return Some((u16::try_from(number).ok()?, cylinders));
                }
            }
        }
        None
    }
}
