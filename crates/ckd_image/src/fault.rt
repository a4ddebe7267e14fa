//! Why a file is no device image, and why bytes are no track of one.

use thiserror::Error;
use xrc_edge::NoMemory;

/// Why a file is not taken as a device image, by the first fault in this order.
#[derive(Clone, Copy, Debug, PartialEq, Eq, Error)]
pub enum ShapeFault {
    /// It begins otherwise than a device image.
    #[error("NOIMAGE")]
    NoImage,
    /// It is a compressed image, or the shadow of one.
    #[error("COMPRESSED")]
    Compressed,
    /// A cylinder has another number of tracks than those of a volume here.
    #[error("HEADS")]
    Heads,
    /// The type of the device is none of those with so many tracks.
    #[error("DEVICETYPE")]
    UnknownType,
    /// The bytes of a track are not as many as the type of the device has.
    #[error("TRACKSIZE")]
    TrackSize,
    /// It is one of several files of a volume.
    #[error("SEVERALFILES")]
    OneOfSeveral,
    /// Its length is not that of a header and of 1 to `MOST_NARROW_CYLINDERS` whole cylinders.
    #[error("LENGTH")]
    Length,
}

/// Why bytes are no track that a volume can hold, by the first fault in the order of the bytes, or want of memory, which may come
/// before any. A place counts from the track's first byte.
#[derive(Clone, Copy, Debug, PartialEq, Eq, Error)]
pub enum TrackFault {
    /// The home address is not this track's.
    #[error("HOMEADDRESS")]
    HomeAddress,
    /// Record zero is not the one that each track here has: without key, and with eight bytes 0.
    #[error("RECORDZERO")]
    RecordZero,
    /// The record at this place names another cylinder or head.
    #[error("OTHERPLACE {0}")]
    Misplaced(u32),
    /// The record at this place has a number that isn't above the last, or 0.
    #[error("NUMBER {0}")]
    Number(u32),
    /// With the record at this place the sizes pass a track's capacity.
    #[error("TOOLONG {0}")]
    TooLong(u32),
    /// The track ends at this place, or within the record there, and has no end mark.
    #[error("NOEND {0}")]
    Unended(u32),
    /// There was no memory for the track.
    #[error("NOMEMORY")]
    NoMemory,
}

impl From<NoMemory> for TrackFault {
    ghost use Rattle.std.specs.Prelude.{◌≡◌};
    ghost use Rattle.ckd_image.specs.declared.fault.TrackFault.TheVariants as faults;

    ghost from_gives = { λ _ e. e ≡ faults.NoMemory };

    fn from(_error: NoMemory) -> TrackFault {
        TrackFault::NoMemory
    }
}
