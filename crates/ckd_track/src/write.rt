//! A write to a track, and batches of writes.

use crate::layout::LONGEST_UPDATE;
use crate::rec::RecList;
use crate::recs::are_records_above;
use crate::track::Track;
use tod_stamp::Stamp;
use xrc_edge::{Bytes, List};

/// What a write does to its track.
#[derive(Debug, Drop)]
pub enum Kind {
    /// The content of the record with this number becomes the bytes, filled with zeros or cut to its length. Where no record
    /// has the number the track stays.
    Update { number: u8, bytes: Bytes },

    /// Records above `after` are erased, and of these the ones before the first that doesn't fit are put after it. 0 stands
    /// for the track's start. Where another `after` isn't found the track stays.
    Format { after: u8, recs: RecList },

    /// The track is replaced.
    Whole { track: Track },
}

impl Kind {
    ghost use Rattle.std.specs.Prelude.{◌↔◌, IsTrue};
    ghost use Rattle.ckd_track.specs.Effects.{keeps_rules};

    /// Whether an update names a record from 1 to 255 and has at most `LONGEST_UPDATE` bytes, and whether the records of a format
    /// rise in number from above `after`, with keys of at most 255 bytes, and fit a track.
    pub fn keeps_rules(&self) -> bool
        ensures { IsTrue result ↔ IsTrue (keeps_rules self.now) }
    {
        match self {
            Kind::Update { number, bytes } => *number >= 1 && bytes.len() <= LONGEST_UPDATE,
            Kind::Format { after, recs } => are_records_above(*after, recs.as_slice()),
            Kind::Whole { .. } => true,
        }
    }
}

/// A write: the volume of its controller, the number of its track there, the host's stamp, and what it does.
#[derive(Debug, Drop)]
pub struct Write {
    pub volume: u16,
    pub track: u32,
    pub stamp: Stamp,
    pub kind: Kind,
}

/// Writes in order.
pub type WriteList = List<Write>;

/// The next writes of a controller, in order. Every later one has a stamp above `upto`.
#[derive(Debug, Drop)]
pub struct Batch {
    pub control: u16,
    pub writes: WriteList,
    pub upto: Stamp,
}

/// Why a controller's trace was given up.
#[derive(Clone, Copy, Debug, PartialEq, Eq)]
pub enum Cause {
    /// The source failed.
    ReadFault,
    /// The entry that begins at this place is cut or breaks a rule.
    BadTrace(u64),
    /// There are too many writes of this stamp.
    Crowded(Stamp),
}
