//! Writing traces.

ghost use Rattle.std.specs.Prelude.{◌≡◌, ◌≤◌, ◌<◌, ◌^◌, ◌*◌, ◌++◌, ◌∷◌, [], length, take, OnOk, OnErr, IsTrue};
ghost use Rattle.std.specs.Int.{w16, w32, w64, to_be_bytes};
ghost use Rattle.std.specs.List.{flat_map, All};
ghost use Rattle.ckd_track.specs.Effects.{keeps_rules};
ghost use Rattle.ckd_track.specs.Entries.{tag_of};
ghost use Rattle.write_trace.specs.declared.entry.Entry.TheVariants.{Written, Idle as idle_entry};
ghost use Rattle.write_trace.specs.Entries.{entry_spelling};
ghost use Rattle.tod_stamp.specs.Fields.{is_version};
ghost use Rattle.write_trace.specs.Headers.{trace_mark, most_cylinders, place_spelling, volume_spelling, base_spelling, header_spelling, is_header};

use crate::header::{BaseTrack, Header, VolumeHead};
use byteorder::{BigEndian, ByteOrder};
use ckd_track::Write;
use std::alloc::Global;
use tod_stamp::Stamp;
use xrc_edge::{Bytes, NoMemory, TRACKS_OF_CYLINDER};

/// The volume, cylinder and head of a track, in version 1.
fn narrow_place(volume: u16, track: u32) -> [u8; 6]
    requires { track < TRACKS_OF_CYLINDER * most_cylinders 1 }
    ensures { result ≡ place_spelling 1 volume track }
{
    let mut bytes = [0; 6];
    BigEndian::write_u16(&mut bytes, volume);
    BigEndian::write_u16(&mut bytes[2..], (track / TRACKS_OF_CYLINDER) as u16);
    BigEndian::write_u16(&mut bytes[4..], (track % TRACKS_OF_CYLINDER) as u16);
    bytes
}

/// The same in version 2.
fn wide_place(volume: u16, track: u32) -> [u8; 8]
    ensures { result ≡ place_spelling 2 volume track }
{
    let mut bytes = [0; 8];
    BigEndian::write_u16(&mut bytes, volume);
    BigEndian::write_u32(&mut bytes[2..], track / TRACKS_OF_CYLINDER);
    BigEndian::write_u16(&mut bytes[6..], (track % TRACKS_OF_CYLINDER) as u16);
    bytes
}

/// Puts a track's place after other bytes.
fn append_place(
    alloc: Global,
    out: &mut Bytes,
    version: u8,
    volume: u16,
    track: u32,
) -> Result<(), NoMemory>
    requires version { IsTrue (is_version version) }
    requires track { track < TRACKS_OF_CYLINDER * most_cylinders version }
    ensures ok { OnOk result (out.new ≡ out.old ++ place_spelling version volume track) }
    ensures kept { take (length out.old) out.new ≡ out.old }
{
    if version == 1 {
        out.extend_from_slice(alloc, &narrow_place(volume, track))
    } else {
        out.extend_from_slice(alloc, &wide_place(volume, track))
    }
}

/// A volume in version 1.
fn narrow_volume(volume: &VolumeHead) -> [u8; 8]
    requires { volume.now.cylinders < 2 ^ 16 }
    ensures { result ≡ volume_spelling 1 volume.now }
{
    let mut bytes = [0; 8];
    BigEndian::write_u16(&mut bytes[6..], volume.cylinders as u16);
    bytes[..6].copy_from_slice(&volume.serial.field());
    bytes
}

/// A volume in version 2.
fn wide_volume(volume: &VolumeHead) -> [u8; 10]
    ensures { result ≡ volume_spelling 2 volume.now }
{
    let mut bytes = [0; 10];
    BigEndian::write_u32(&mut bytes[6..], volume.cylinders);
    bytes[..6].copy_from_slice(&volume.serial.field());
    bytes
}

/// Puts a volume after other bytes.
fn append_volume(
    alloc: Global,
    out: &mut Bytes,
    version: u8,
    volume: &VolumeHead,
) -> Result<(), NoMemory>
    requires version { IsTrue (is_version version) }
    requires few { volume.now.cylinders ≤ most_cylinders version }
    ensures ok { OnOk result (out.new ≡ out.old ++ volume_spelling version volume.now) }
    ensures kept { take (length out.old) out.new ≡ out.old }
{
    if version == 1 {
        out.extend_from_slice(alloc, &narrow_volume(volume))
    } else {
        out.extend_from_slice(alloc, &wide_volume(volume))
    }
}

/// The tag of an entry, and its stamp.
fn entry_head(write: &Write) -> [u8; 9]
    ensures { result ≡ tag_of write.now.kind ∷ [] ++ to_be_bytes w64 write.now.stamp.0 }
{
    let mut head = [0; 9];
    head[0] = write.kind.tag();
    BigEndian::write_u64(&mut head[1..], write.stamp.0);
    head
}

fn idle_bytes(stamp: Stamp) -> [u8; 9]
    ensures { result ≡ entry_spelling 1 (idle_entry stamp) }
{
    let mut bytes = [1; 9];
    BigEndian::write_u64(&mut bytes[1..], stamp.0);
    bytes
}

fn append_entry(alloc: Global, out: &mut Bytes, version: u8, write: &Write) -> Result<(), NoMemory>
    requires version { IsTrue (is_version version) }
    requires track { write.now.track < TRACKS_OF_CYLINDER * most_cylinders version }
    requires rules { IsTrue (keeps_rules write.now.kind) }
    ensures ok { OnOk result (out.new ≡ out.old ++ entry_spelling version (Written write.now)) }
    ensures kept { take (length out.old) out.new ≡ out.old }
{
    out.extend_from_slice(alloc, &entry_head(write))?;
    append_place(alloc, out, version, write.volume, write.track)?;
    write.kind.encode_fields(alloc, out)
}

/// Puts volumes after other bytes. Want of memory may leave a part of them there.
fn append_volumes(
    alloc: Global,
    out: &mut Bytes,
    version: u8,
    volumes: &[VolumeHead],
) -> Result<(), NoMemory>
    requires version { IsTrue (is_version version) }
    requires few { All (λ v. v.cylinders ≤ most_cylinders version) volumes.now }
    ensures ok { OnOk result (out.new ≡ out.old ++ flat_map (volume_spelling version) volumes.now) }
    ensures kept { take (length out.old) out.new ≡ out.old }
{
    for volume in volumes {
        append_volume(alloc, out, version, volume)?;
    }
    Ok(())
}

fn append_base(
    alloc: Global,
    out: &mut Bytes,
    version: u8,
    base: &BaseTrack,
) -> Result<(), NoMemory>
    requires version { IsTrue (is_version version) }
    requires near { base.now.1 < TRACKS_OF_CYLINDER * most_cylinders version }
    ensures ok { OnOk result (out.new ≡ out.old ++ base_spelling version base.now) }
    ensures kept { take (length out.old) out.new ≡ out.old }
{
    let (volume, track, recs) = base;
    append_place(alloc, out, version, *volume, *track)?;
    recs.encode_image(alloc, out)
}

/// Puts base tracks after other bytes. Want of memory may leave a part of them there.
fn append_bases(
    alloc: Global,
    out: &mut Bytes,
    version: u8,
    base: &[BaseTrack],
) -> Result<(), NoMemory>
    requires version { IsTrue (is_version version) }
    requires near { All (λ b. b.1 < TRACKS_OF_CYLINDER * most_cylinders version) base.now }
    ensures ok { OnOk result (out.new ≡ out.old ++ flat_map (base_spelling version) base.now) }
    ensures kept { take (length out.old) out.new ≡ out.old }
{
    for one in base {
        append_base(alloc, out, version, one)?;
    }
    Ok(())
}

/// The mark of a version, and the number of volumes.
fn header_head(version: u8, count: usize) -> [u8; 6]
    requires version { IsTrue (is_version version) }
    requires count { count < 2 ^ 16 }
    ensures { result ≡ trace_mark version ++ to_be_bytes w16 count }
{
    let mut head = *b"XTR0\0\0";
    head[3] += version;
    BigEndian::write_u16(&mut head[4..], count as u16);
    head
}

fn append_header(alloc: Global, out: &mut Bytes, header: &Header) -> Result<(), NoMemory>
    requires rules { IsTrue (is_header header.now) }
    ensures ok { OnOk result (out.new ≡ out.old ++ header_spelling header.now) }
    ensures kept { take (length out.old) out.new ≡ out.old }
{
    out.extend_from_slice(alloc, &header_head(header.version, header.volumes.len()))?;
    append_volumes(alloc, out, header.version, header.volumes.as_slice())?;
    out.extend_from_slice(alloc, &(header.base.len() as u32).to_be_bytes())?;
    append_bases(alloc, out, header.version, header.base.as_slice())
}

/// Writes the parts of a trace, each after the bytes that are there. Where memory is short the bytes stay as they
/// were.
pub struct TraceWriter;

impl TraceWriter {
    /// An idle entry.
    pub fn idle(alloc: Global, out: &mut Bytes, stamp: Stamp) -> Result<(), NoMemory>
        requires { 1 ≤ stamp.0 }
        ensures ok { OnOk result (out.new ≡ out.old ++ entry_spelling 1 (idle_entry stamp)) }
        ensures err { OnErr result (out.new ≡ out.old) }
    {
        out.extend_from_slice(alloc, &idle_bytes(stamp))
    }

    /// The header of a trace. It keeps the rules: 1 to `MOST_CONTROL_VOLUMES` volumes with different serials and 1 to its
    /// version's most cylinders each, and base tracks of theirs in order.
    pub fn header(alloc: Global, out: &mut Bytes, header: &Header) -> Result<(), NoMemory>
        requires { IsTrue (is_header header.now) }
        ensures ok { OnOk result (out.new ≡ out.old ++ header_spelling header.now) }
        ensures err { OnErr result (out.new ≡ out.old) }
    {
        let before = out.len();
        let appended = append_header(alloc, out, header);
        if appended.is_err() {
            out.truncate(before);
        }
        appended
    }

    /// The entry of a write in a version. Its track lies in one of the version's most cylinders.
    pub fn write(alloc: Global, out: &mut Bytes, version: u8, write: &Write) -> Result<(), NoMemory>
        requires version { IsTrue (is_version version) }
        requires stamp { 1 ≤ write.now.stamp.0 }
        requires track { write.now.track < TRACKS_OF_CYLINDER * most_cylinders version }
        requires rules { IsTrue (keeps_rules write.now.kind) }
        ensures ok { OnOk result (out.new ≡ out.old ++ entry_spelling version (Written write.now)) }
        ensures err { OnErr result (out.new ≡ out.old) }
    {
        let before = out.len();
        let appended = append_entry(alloc, out, version, write);
        if appended.is_err() {
            out.truncate(before);
        }
        appended
    }
}
