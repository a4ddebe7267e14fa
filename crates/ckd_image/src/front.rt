//! What each track begins with.

ghost use Rattle.std.specs.Prelude.{◌≡◌, ◌<◌, ◌*◌, ◌++◌};
ghost use Rattle.xrc_edge.specs.declared.limits.TheConstants.{MOST_NARROW_CYLINDERS, TRACKS_OF_CYLINDER};
ghost use Rattle.ckd_image.specs.ImageTracks.{begins_with, count_place, track_front};

use crate::layout::{FRONT_LENGTH, HOME_LENGTH};
use byteorder::{BigEndian, ByteOrder};
use xrc_edge::TRACKS_OF_CYLINDER;

/// The cylinder and head of a track.
pub(crate) fn count_place(track: u32) -> [u8; 4]
    requires { track < TRACKS_OF_CYLINDER * MOST_NARROW_CYLINDERS }
    ensures { result ≡ count_place track }
{
    let mut bytes = [0; 4];
    BigEndian::write_u16(&mut bytes, (track / TRACKS_OF_CYLINDER) as u16);
    BigEndian::write_u16(&mut bytes[2..], (track % TRACKS_OF_CYLINDER) as u16);
    bytes
}

/// The home address of a track, and record zero.
pub(crate) fn track_front(track: u32) -> [u8; FRONT_LENGTH]
    requires { track < TRACKS_OF_CYLINDER * MOST_NARROW_CYLINDERS }
    ensures { result ≡ track_front track }
{
    let place = count_place(track);
    let mut bytes = [0; FRONT_LENGTH];
    bytes[1..HOME_LENGTH].copy_from_slice(&place);
    bytes[HOME_LENGTH..HOME_LENGTH + 4].copy_from_slice(&place);
    bytes[HOME_LENGTH + 7] = 8;
    bytes
}

/// Whether bytes begin with others.
pub(crate) fn begins_with(front: &[u8], bytes: &[u8]) -> bool
    ensures { result ≡ begins_with front.now bytes.now }
{
    bytes.starts_with(front)
}
