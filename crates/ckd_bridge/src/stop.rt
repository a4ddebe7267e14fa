//! Why a command of the bridge was not done.

use ckd_image::{ShapeFault, TrackFault};
use std::alloc::AllocError;
use std::fmt;
use xrc_edge::{NoMemory, TRACKS_OF_CYLINDER};

/// An image that is read: the one of an import and the old one of a capture, or the new one.
#[derive(Clone, Copy, Debug, PartialEq, Eq)]
pub enum ImageFile {
    First,
    Second,
}

/// What of the files that are read can't be taken, and where it stands.
#[derive(Clone, Copy, Debug, PartialEq, Eq)]
pub enum Refusal {
    /// The file is not taken as an image.
    Image(ImageFile, ShapeFault),
    /// The track of this number in the image is not one that a volume can hold.
    Track(ImageFile, u32, TrackFault),
    /// The two images differ in the type of their device, or in its cylinders.
    OtherShape,
    /// The field of the trace's header that begins at this place is cut or breaks its rule.
    BadHeader(u64),
    /// The entry of the trace that begins at this place is cut or breaks a rule.
    BadTrace(u64),
    /// The stamp is below the one of the trace's last entry.
    EarlierStamp,
    /// The trace names no volume of this serial.
    NoVolume,
    /// The trace's volume of this serial has other cylinders than the image.
    OtherCylinders,
    /// The volume has no valid label.
    NoLabel,
    /// The volume has more cylinders than an image can.
    TooLarge,
    /// The slot of the track of this number holds no track.
    NoTrack(u32),
    /// The track of this number has no room on a track of the image's device.
    NoRoom(u32),
}

/// Why a command was not done.
#[derive(Clone, Copy, Debug, PartialEq, Eq)]
pub enum Stop {
    /// There was no memory.
    NoMemory,
    /// A file could not be read.
    ReadFault,
    /// The file that is written could not be written. It may have a part of what was to be written.
    WriteFault,
    /// Something can't be taken. Nothing was written.
    Refused(Refusal),
}

/// The cylinder and head of a track.
fn write_place<W: fmt::Write>(f: &mut fmt::Formatter<W>, number: u32) -> fmt::Result {
    let (cylinder, head) = (number / TRACKS_OF_CYLINDER, number % TRACKS_OF_CYLINDER);
    write!(f, " CYLINDER {cylinder} HEAD {head}")
}

impl fmt::Display for ImageFile {
    fn fmt<W: fmt::Write>(&self, f: &mut fmt::Formatter<W>) -> fmt::Result {
        match self {
            ImageFile::First => write!(f, "IMAGE 1"),
            ImageFile::Second => write!(f, "IMAGE 2"),
        }
    }
}

impl fmt::Display for Refusal {
    fn fmt<W: fmt::Write>(&self, f: &mut fmt::Formatter<W>) -> fmt::Result {
        match self {
            Refusal::Image(file, fault) => write!(f, "{file} {fault}"),
            Refusal::Track(file, number, fault) => {
                write!(f, "{file}")?;
                write_place(f, *number)?;
                write!(f, " {fault}")
            }
            Refusal::OtherShape => write!(f, "OTHERSHAPE"),
            Refusal::BadHeader(place) => write!(f, "BADHEADER {place}"),
            Refusal::BadTrace(place) => write!(f, "BADTRACE {place}"),
            Refusal::EarlierStamp => write!(f, "EARLIERSTAMP"),
            Refusal::NoVolume => write!(f, "NOVOLUME"),
            Refusal::OtherCylinders => write!(f, "OTHERCYLINDERS"),
            Refusal::NoLabel => write!(f, "NOLABEL"),
            Refusal::TooLarge => write!(f, "TOOLARGE"),
            Refusal::NoTrack(number) => {
                write!(f, "VOLUME")?;
                write_place(f, *number)?;
                write!(f, " NOTRACK")
            }
            Refusal::NoRoom(number) => {
                write!(f, "VOLUME")?;
                write_place(f, *number)?;
                write!(f, " NOROOM")
            }
        }
    }
}

impl fmt::Display for Stop {
    fn fmt<W: fmt::Write>(&self, f: &mut fmt::Formatter<W>) -> fmt::Result {
        match self {
            Stop::NoMemory => write!(f, "NOMEMORY"),
            Stop::ReadFault => write!(f, "READFAULT"),
            Stop::WriteFault => write!(f, "WRITEFAULT"),
            Stop::Refused(refusal) => write!(f, "REFUSED {refusal}"),
        }
    }
}

impl From<NoMemory> for Stop {
    ghost use Rattle.std.specs.Prelude.{◌≡◌};
    ghost use Rattle.ckd_bridge.specs.declared.stop.Stop.TheVariants as stops;

    ghost from_gives = { λ _ e. e ≡ stops.NoMemory };

    fn from(_error: NoMemory) -> Stop {
        Stop::NoMemory
    }
}

impl From<AllocError> for Stop {
    ghost use Rattle.std.specs.Prelude.{◌≡◌};
    ghost use Rattle.ckd_bridge.specs.declared.stop.Stop.TheVariants as stops;

    ghost from_gives = { λ _ e. e ≡ stops.NoMemory };

    fn from(_error: AllocError) -> Stop {
        Stop::NoMemory
    }
}
