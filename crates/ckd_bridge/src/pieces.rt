//! The pieces of a file that is written, one for each track.

ghost use Rattle.std.specs.Prelude.{◌≡◌, ◌≤◌, ◌<◌, ◌*◌, ◌∷◌, [], IfOk, IsTrue};
ghost use Rattle.xrc_edge.specs.declared.limits.TheConstants.{MOST_NARROW_CYLINDERS, TRACKS_OF_CYLINDER};
ghost use Rattle.tod_stamp.specs.Fields.{is_version};
ghost use Rattle.ckd_track.specs.SlotPlaces.{slot_end};
ghost use Rattle.write_trace.specs.declared.entry.Entry.TheVariants.{Written};
ghost use Rattle.write_trace.specs.Entries.{entry_spelling};
ghost use Rattle.write_trace.specs.Headers.{base_spelling};
ghost use Rattle.ckd_image.specs.ImageTracks.{fitted_image_track};
ghost use Rattle.ckd_image.specs.Shapes.{image_length, track_bytes};
ghost use Rattle.ckd_bridge.specs.declared.stop.Refusal.TheVariants.{NoRoom};
ghost use Rattle.ckd_bridge.specs.Jobs.{AreFilesReady, ReadSame, SameLengths, captured_after as after_of, captured_piece, captured_write, changed_piece, exported_piece, fault_counts, imported_piece, job_count, piece_of};
ghost use Rattle.ckd_bridge.specs.Pieces.{GivesPiece, IsNoFault, ReadsWithCause};
ghost use Rattle.ckd_bridge.specs.Tracks.{there_or};

use crate::files::Files;
use crate::job::Job;
use crate::named_volume::NamedVolume;
use crate::stop::{ImageFile, Refusal, Stop};
use crate::tracks::{read_image_track, read_slot_track};
use ckd_image::{DeviceType, ImageShape, fitted_track};
use ckd_track::{Kind, Track, Write};
use crash_plant::Disk;
use std::alloc::Global;
use tod_stamp::Stamp;
use write_trace::TraceWriter;
use xrc_edge::{Bytes, NoMemory};

/// The bytes of an entry before its volume: its tag and its stamp.
const BEFORE_VOLUME: usize = 9;

/// The entry of a version by which a track of this volume is replaced.
#[tactic(auto, using(crate::proofs::Versions::track_is_near))]
fn whole_entry(
    alloc: Global,
    version: u8,
    volume: u16,
    stamp: Stamp,
    number: u32,
    track: Track,
) -> Result<Bytes, NoMemory>
    requires version { IsTrue (is_version version) }
    requires stamp { 1 ≤ stamp.0 }
    requires number { number < TRACKS_OF_CYLINDER * MOST_NARROW_CYLINDERS }
    ensures { IfOk result (λ bytes. bytes ≡ entry_spelling version (Written (captured_write volume stamp.0 number track))) }
{
    let write = Write {
        volume,
        track: number,
        stamp,
        kind: Kind::Whole { track },
    };
    let mut entry = Bytes::make(alloc);
    TraceWriter::write(alloc, &mut entry, version, &write)?;
    Ok(entry)
}

/// A base track of the first volume of a trace of version 1. It is spelled as an entry is that replaces it, without that entry's tag and stamp.
fn base_track(alloc: Global, number: u32, track: Track) -> Result<Bytes, NoMemory>
    requires { number < TRACKS_OF_CYLINDER * MOST_NARROW_CYLINDERS }
    ensures { IfOk result (λ bytes. bytes ≡ base_spelling 1 (0, number, track)) }
{
    let entry = whole_entry(alloc, 1, 0, Stamp(1), number, track)?;
    let (_, spelled) = entry.as_slice().split_at(BEFORE_VOLUME);
    let mut base = Bytes::make(alloc);
    base.extend_from_slice(alloc, spelled)?;
    Ok(base)
}

/// The entry by which a track becomes another, or nothing where they are the same.
fn changed_track(
    alloc: Global,
    volume: NamedVolume,
    stamp: Stamp,
    number: u32,
    before: &Track,
    after: Track,
) -> Result<Bytes, NoMemory>
    requires version { IsTrue (is_version volume.version) }
    requires stamp { 1 ≤ stamp.0 }
    requires number { number < TRACKS_OF_CYLINDER * MOST_NARROW_CYLINDERS }
    ensures { IfOk result (λ bytes. bytes ≡ changed_piece volume stamp.0 number before.now after) }
{
    let mut old = Bytes::make(alloc);
    before.encode_image(alloc, &mut old)?;
    let mut new = Bytes::make(alloc);
    after.encode_image(alloc, &mut new)?;
    if old.as_slice() == new.as_slice() {
        Ok(Bytes::make(alloc))
    } else {
        whole_entry(alloc, volume.version, volume.number, stamp, number, after)
    }
}

/// The bytes of a track on a device of this type.
fn track_on_device(
    alloc: Global,
    device_type: DeviceType,
    number: u32,
    track: &Track,
) -> Result<Bytes, Stop>
    requires { number < TRACKS_OF_CYLINDER * MOST_NARROW_CYLINDERS }
    ensures piece { GivesPiece (λ bytes. bytes) result (there_or (NoRoom number) (fitted_image_track (track_bytes device_type) number track.now)) }
    ensures cause { IsNoFault result }
{
    match fitted_track(alloc, number, track, device_type.track_bytes() as usize) {
        Ok(Some(bytes)) => Ok(bytes),
        Ok(None) => Err(Stop::Refused(Refusal::NoRoom(number))),
        Err(NoMemory) => Err(Stop::NoMemory),
    }
}

fn imported<D: Disk>(
    alloc: Global,
    image: &mut D,
    shape: ImageShape,
    number: u32,
) -> Result<Bytes, Stop>
    requires long { image_length shape ≤ (D.state image.old).length_is }
    requires cylinders { shape.cylinders ≤ MOST_NARROW_CYLINDERS }
    requires number { number < TRACKS_OF_CYLINDER * shape.cylinders }
    ensures piece { D.tells → GivesPiece (λ bytes. bytes) result (imported_piece shape (D.state image.old).bytes number) }
    ensures same { D.tells → (D.state image.new).bytes ≡ (D.state image.old).bytes }
    ensures length { (D.state image.new).length_is ≡ (D.state image.old).length_is }
    ensures cause { ReadsWithCause ((D.state image.old).faults ∷ []) ((D.state image.new).faults ∷ []) result }
{
    match read_image_track(alloc, image, ImageFile::First, shape, number) {
        Ok(track) => match base_track(alloc, number, track) {
            Ok(bytes) => Ok(bytes),
            Err(NoMemory) => Err(Stop::NoMemory),
        },
        Err(stop) => Err(stop),
    }
}

fn exported<D: Disk>(
    alloc: Global,
    volume: &mut D,
    device_type: DeviceType,
    number: u32,
) -> Result<Bytes, Stop>
    requires long { slot_end number ≤ (D.state volume.old).length_is }
    requires number { number < TRACKS_OF_CYLINDER * MOST_NARROW_CYLINDERS }
    ensures piece { D.tells → GivesPiece (λ bytes. bytes) result (exported_piece device_type (D.state volume.old).bytes number) }
    ensures same { D.tells → (D.state volume.new).bytes ≡ (D.state volume.old).bytes }
    ensures length { (D.state volume.new).length_is ≡ (D.state volume.old).length_is }
    ensures cause { ReadsWithCause ((D.state volume.old).faults ∷ []) ((D.state volume.new).faults ∷ []) result }
{
    match read_slot_track(alloc, volume, number) {
        Ok(track) => track_on_device(alloc, device_type, number, &track),
        Err(stop) => Err(stop),
    }
}

/// The entry by which the track of the first image becomes the one of the second, which was not read yet.
fn captured_after<D: Disk>(
    alloc: Global,
    image: &mut D,
    shape: ImageShape,
    volume: NamedVolume,
    stamp: Stamp,
    number: u32,
    before: &Track,
) -> Result<Bytes, Stop>
    requires long { image_length shape ≤ (D.state image.old).length_is }
    requires cylinders { shape.cylinders ≤ MOST_NARROW_CYLINDERS }
    requires number { number < TRACKS_OF_CYLINDER * shape.cylinders }
    requires version { IsTrue (is_version volume.version) }
    requires stamp { 1 ≤ stamp.0 }
    ensures piece { D.tells → GivesPiece (λ bytes. bytes) result (after_of shape volume stamp.0 before.now (D.state image.old).bytes number) }
    ensures same { D.tells → (D.state image.new).bytes ≡ (D.state image.old).bytes }
    ensures length { (D.state image.new).length_is ≡ (D.state image.old).length_is }
    ensures cause { ReadsWithCause ((D.state image.old).faults ∷ []) ((D.state image.new).faults ∷ []) result }
{
    match read_image_track(alloc, image, ImageFile::Second, shape, number) {
        Ok(after) => match changed_track(alloc, volume, stamp, number, before, after) {
            Ok(bytes) => Ok(bytes),
            Err(NoMemory) => Err(Stop::NoMemory),
        },
        Err(stop) => Err(stop),
    }
}

fn captured<D: Disk + Drop>(
    alloc: Global,
    files: &mut Files<D>,
    shape: ImageShape,
    volume: NamedVolume,
    stamp: Stamp,
    number: u32,
) -> Result<Bytes, Stop>
    requires first { image_length shape ≤ (D.state files.old.first).length_is }
    requires second { image_length shape ≤ (D.state files.old.second).length_is }
    requires cylinders { shape.cylinders ≤ MOST_NARROW_CYLINDERS }
    requires number { number < TRACKS_OF_CYLINDER * shape.cylinders }
    requires version { IsTrue (is_version volume.version) }
    requires stamp { 1 ≤ stamp.0 }
    ensures piece { D.tells → GivesPiece (λ bytes. bytes) result (captured_piece shape volume stamp.0 (D.state files.old.first).bytes (D.state files.old.second).bytes number) }
    ensures same { D.tells → ReadSame (D.state files.old.first) (D.state files.old.second) (D.state files.new.first) (D.state files.new.second) }
    ensures length { SameLengths (D.state files.old.first) (D.state files.old.second) (D.state files.new.first) (D.state files.new.second) }
    ensures cause { ReadsWithCause (fault_counts (D.state files.old.first) (D.state files.old.second)) (fault_counts (D.state files.new.first) (D.state files.new.second)) result }
{
    match read_image_track(alloc, &mut files.first, ImageFile::First, shape, number) {
        Ok(before) => captured_after(
            alloc,
            &mut files.second,
            shape,
            volume,
            stamp,
            number,
            &before,
        ),
        Err(stop) => Err(stop),
    }
}

/// The piece of the track of that number.
pub(crate) fn piece<D: Disk + Drop>(
    alloc: Global,
    job: &Job,
    files: &mut Files<D>,
    number: u32,
) -> Result<Bytes, Stop>
    requires ready { AreFilesReady job.now (D.state files.old.first) (D.state files.old.second) }
    requires number { number < job_count job.now }
    ensures piece { D.tells → GivesPiece (λ bytes. bytes) result (piece_of job.now (D.state files.old.first).bytes (D.state files.old.second).bytes number) }
    ensures same { D.tells → ReadSame (D.state files.old.first) (D.state files.old.second) (D.state files.new.first) (D.state files.new.second) }
    ensures length { SameLengths (D.state files.old.first) (D.state files.old.second) (D.state files.new.first) (D.state files.new.second) }
    ensures cause { ReadsWithCause (fault_counts (D.state files.old.first) (D.state files.old.second)) (fault_counts (D.state files.new.first) (D.state files.new.second)) result }
{
    match job {
        Job::Import { shape } => imported(alloc, &mut files.first, *shape, number),
        Job::Capture {
            shape,
            volume,
            stamp,
        } => captured(alloc, files, *shape, *volume, *stamp, number),
        Job::Export { device_type, .. } => {
            exported(alloc, &mut files.first, *device_type, number)
        }
    }
}
