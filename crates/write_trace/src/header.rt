//! The header of a trace.

ghost use Rattle.std.specs.Prelude.{◌≡◌, ◌≤◌, ◌↔◌, ◌&&◌, [], ◌<◌, length, nat_lt, nat_le, slice_index_or, IsTrue};
ghost use Rattle.tod_stamp.specs.Names.{is_serial};
ghost use Rattle.tod_stamp.specs.Fields.{within};
ghost use Rattle.ckd_track.specs.Tracks.{is_track};
ghost use Rattle.xrc_edge.specs.declared.limits.TheConstants.{MOST_CONTROL_VOLUMES};
ghost use Rattle.write_trace.specs.Headers.{are_volumes, are_bases, cylinders_of, is_track_of, is_from, most_cylinders, serial_place, volume_length};
ghost use Rattle.write_trace.specs.SeenSerials.{serials_of, is_named_before};

use ckd_track::Track;
use tod_stamp::Serial;
use xrc_edge::{
    List, MOST_CONTROL_VOLUMES, MOST_CYLINDERS, MOST_NARROW_CYLINDERS, TRACKS_OF_CYLINDER,
};

/// A volume of a trace: its serial and its number of cylinders, which have `TRACKS_OF_CYLINDER` tracks each.
#[derive(Clone, Copy, Debug)]
pub struct VolumeHead {
    pub serial: Serial,
    pub cylinders: u32,
}

/// The volumes of a trace, in order of their numbers.
pub type VolumeList = List<VolumeHead>;

/// What a track holds before the first entry: the number of its volume, its own number there, and its records.
pub type BaseTrack = (u16, u32, Track);

/// Base tracks, in order of volume and track. A track that is not listed is empty.
pub type BaseList = List<BaseTrack>;

/// The header of a trace. The version is 1 or 2.
#[derive(Debug, Drop)]
pub struct Header {
    pub version: u8,
    pub volumes: VolumeList,
    pub base: BaseList,
}

impl Header {
    ghost use Rattle.write_trace.specs.Headers.{is_header};

    /// Whether this is a header of its version: 1 to `MOST_CONTROL_VOLUMES` volumes, each with a serial that no other has and 1 to
    /// as many cylinders as the version allows, and base tracks that rise by volume and track, each a track of one of these volumes.
    pub fn keeps_rules(&self) -> bool
        ensures { IsTrue result ↔ IsTrue (is_header self.now) }
    {
        let volumes = self.volumes.as_slice();
        (1..=2).contains(&self.version)
            && (1..=MOST_CONTROL_VOLUMES as usize).contains(&volumes.len())
            && are_volumes(self.version, volumes)
            && are_bases(volumes, self.base.as_slice())
    }
}

/// The bytes of a header before its volumes: the mark, and the number of volumes.
const BEFORE_VOLUMES: u64 = 6;

/// The bytes of a volume in a header of version 1: those of its serial, and of its cylinders.
const NARROW_VOLUME_LENGTH: u64 = 8;

/// The same in version 2.
const VOLUME_LENGTH: u64 = 10;

/// The bytes of a volume in a header of a version.
fn volume_length(version: u8) -> u64
    ensures length { result ≡ volume_length version }
    ensures few { result ≤ VOLUME_LENGTH }
{
    if version == 1 {
        NARROW_VOLUME_LENGTH
    } else {
        VOLUME_LENGTH
    }
}

/// The place in a header of a version of the serial of the volume of that number.
pub fn serial_place(version: u8, volume: usize) -> u64
    requires { volume < MOST_CONTROL_VOLUMES }
    ensures { result ≡ serial_place version volume }
{
    BEFORE_VOLUMES + volume as u64 * volume_length(version)
}

/// Whether one of the volumes has the serial of these bytes.
fn has_serial(volumes: &[VolumeHead], serial: &[u8]) -> bool
    ensures { result ≡ is_named_before (serials_of volumes.now) serial.now }
{
    let mut found = false;
    for volume in volumes {
        if serial == volume.serial.as_bytes() {
            found = true;
        }
    }
    found
}

/// The most cylinders of a volume in a version.
pub fn most_cylinders(version: u8) -> u32
    ensures { result ≡ most_cylinders version }
{
    if version == 1 {
        u32::from(MOST_NARROW_CYLINDERS)
    } else {
        MOST_CYLINDERS
    }
}

/// Whether a volume with a serial has 1 to the most cylinders.
fn is_volume(version: u8, volume: &VolumeHead) -> bool
    requires { IsTrue (is_serial volume.now.serial) }
    ensures { result ≡ (is_serial volume.now.serial && within 1 (most_cylinders version) volume.now.cylinders) }
{
    (1..=most_cylinders(version)).contains(&volume.cylinders)
}

/// Whether each volume has a serial that no other has, and 1 to the most cylinders.
fn are_volumes(version: u8, volumes: &[VolumeHead]) -> bool
    ensures { result ≡ are_volumes version [] volumes.now }
{
    for (place, volume) in volumes.iter().enumerate() {
        let serial = volume.serial.as_bytes();
        if has_serial(&volumes[..place], serial) || !is_volume(version, volume) {
            return false;
        }
    }
    true
}

fn cylinders_of(volumes: &[VolumeHead], volume: u16) -> u32
    requires there { volume < length volumes.now }
    ensures { result ≡ cylinders_of volumes.now volume }
{
    volumes[volume as usize].cylinders
}

/// Whether there is a volume of that number with a track of that number.
fn has_track(volumes: &[VolumeHead], volume: u16, track: u32) -> bool
    ensures { result ≡ is_track_of volumes.now volume track }
{
    if volume as usize >= volumes.len() {
        return false;
    }
    u64::from(track) < TRACKS_OF_CYLINDER as u64 * u64::from(cylinders_of(volumes, volume))
}

/// Whether a base track's place is not below another. Its records are a track by their type.
fn is_from(low_volume: u16, low_track: u64, listed: &BaseTrack) -> bool
    ensures { result ≡ (is_from (low_volume, low_track) (listed.now.0, listed.now.1) && is_track listed.now.2) }
{
    let (volume, track, content) = listed;
    // Numbers of records rise, and each is a byte.
    prove!(content.recs().len() <= 255);
    low_volume < *volume || (low_volume == *volume && low_track <= u64::from(*track))
}

/// Whether base tracks rise by volume and track, each a track of one of the volumes.
fn are_bases(volumes: &[VolumeHead], base: &[BaseTrack]) -> bool
    ensures { result ≡ are_bases volumes.now (0, 0) base.now }
{
    let mut low_volume: u16 = 0;
    let mut low_track: u64 = 0;
    for listed in base {
        let (volume, track, _) = listed;
        if !has_track(volumes, *volume, *track) || !is_from(low_volume, low_track, listed) {
            return false;
        }
        low_volume = *volume;
        low_track = u64::from(*track) + 1;
    }
    true
}
