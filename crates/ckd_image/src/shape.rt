//! What a device image is like: the type of its device, and how many cylinders it has.

ghost use Rattle.std.specs.Prelude.{◌≡◌, Some, None};
ghost use Rattle.ckd_image.specs.Shapes.{image_length, track_bytes, track_place, type_byte, type_of};

use crate::layout::HEADER_LENGTH;
use xrc_edge::TRACKS_OF_CYLINDER;

/// The types of devices that have `TRACKS_OF_CYLINDER` tracks a cylinder.
#[derive(Clone, Copy, Debug, PartialEq, Eq)]
pub enum DeviceType {
    Ibm3380,
    Ibm3390,
    Ibm9345,
}

/// A device image: the type of its device, and its cylinders.
#[derive(Clone, Copy, Debug, PartialEq, Eq)]
pub struct ImageShape {
    pub device_type: DeviceType,
    pub cylinders: u32,
}

impl DeviceType {
    /// The bytes of a track in an image.
    pub fn track_bytes(self) -> u32
        ensures { result ≡ track_bytes self }
    {
        match self {
            DeviceType::Ibm3380 => 47_616,
            DeviceType::Ibm3390 => 56_832,
            DeviceType::Ibm9345 => 46_592,
        }
    }

    /// Where a track begins in an image, by its number on the volume.
    pub fn track_place(self, track: u32) -> u64
        ensures { result ≡ track_place self track }
    {
        HEADER_LENGTH as u64 + u64::from(track) * u64::from(self.track_bytes())
    }

    /// The byte by which a header names the type: the last two digits, one in each half.
    pub(crate) fn byte(self) -> u8
        ensures { result ≡ type_byte self }
    {
        match self {
            DeviceType::Ibm3380 => 0x80,
            DeviceType::Ibm3390 => 0x90,
            DeviceType::Ibm9345 => 0x45,
        }
    }

    /// The type that a header names by this byte.
    pub(crate) fn of_byte(byte: u8) -> Option<DeviceType>
        ensures { result ≡ type_of byte }
    {
        match byte {
            0x80 => Some(DeviceType::Ibm3380),
            0x90 => Some(DeviceType::Ibm3390),
            0x45 => Some(DeviceType::Ibm9345),
            _ => None,
        }
    }
}

impl ImageShape {
    /// The length of the image.
    pub fn length(self) -> u64
        ensures { result ≡ image_length self }
    {
        let track = u64::from(self.device_type.track_bytes());
        HEADER_LENGTH as u64 + u64::from(self.cylinders) * u64::from(TRACKS_OF_CYLINDER) * track
    }
}
