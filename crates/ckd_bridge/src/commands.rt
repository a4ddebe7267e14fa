//! The commands: what each writes for what it reads.

ghost use Rattle.std.specs.Prelude.{◌≡◌, ◌≤◌, IfOk, IsTrue};
ghost use Rattle.tod_stamp.specs.Fields.{is_version, within};
ghost use Rattle.xrc_edge.specs.declared.limits.TheConstants.{MOST_NARROW_CYLINDERS};
ghost use Rattle.write_trace.specs.Headers.{header_spelling};
ghost use Rattle.ckd_image.specs.Shapes.{image_length};
ghost use Rattle.ckd_bridge.specs.declared.stop.ImageFile.TheVariants.{First};
ghost use Rattle.ckd_bridge.specs.Commands.{EndsBridge, before_base, captured_bytes, captured_shape, exported_bytes, exported_shape, imported_header, same_shape};
ghost use Rattle.ckd_bridge.specs.Jobs.{ReadSame, SameLengths, captured_piece, exported_piece, fault_counts, imported_piece};
ghost use Rattle.ckd_bridge.specs.Pieces.{CopiesWithCause, GivesPiece, ReadsWithCause};
ghost use Rattle.ckd_bridge.specs.Tracks.{shape_of_image};

use crate::copying::copy_pieces;
use crate::files::Files;
use crate::job::Job;
use crate::named_volume::NamedVolume;
use crate::sink::Sink;
use crate::stop::{ImageFile, Refusal, Stop};
use crate::tracks::read_image_shape;
use ckd_image::{DeviceType, ImageShape, device_header};
use crash_plant::Disk;
use std::alloc::Global;
use tod_stamp::{Serial, Stamp};
use volume_label::need;
use write_trace::{BaseList, Header, TraceWriter, VolumeHead, VolumeList};
use xrc_edge::{Bytes, MOST_NARROW_CYLINDERS, NoMemory, TRACKS_OF_CYLINDER};

/// The header of a trace of one volume, up to its base tracks.
fn before_base(alloc: Global, serial: Serial, cylinders: u32) -> Result<Bytes, NoMemory>
    requires { IsTrue (within 1 MOST_NARROW_CYLINDERS cylinders) }
    ensures { IfOk result (λ bytes. bytes ≡ before_base serial cylinders) }
{
    let mut volumes = VolumeList::make(alloc);
    volumes.push(alloc, VolumeHead { serial, cylinders })?;
    let header = Header {
        version: 1,
        volumes,
        base: BaseList::make(alloc),
    };
    let mut bytes = Bytes::make(alloc);
    TraceWriter::header(alloc, &mut bytes, &header)?;
    // Here stands the number of base tracks, which is 0 so far.
    bytes.truncate(bytes.len() - 4);
    bytes.extend_from_slice(alloc, &(TRACKS_OF_CYLINDER * cylinders).to_be_bytes())?;
    Ok(bytes)
}

/// Writes a trace of one volume, whose base tracks are those of the first file, an image. If something in the image can't be taken
/// nothing is written.
pub fn import<D: Disk + Drop, S: Sink>(
    alloc: Global,
    files: &mut Files<D>,
    serial: Serial,
    trace: &mut S,
) -> Result<ImageShape, Stop>
    ensures imported { D.tells → EndsBridge (shape_of_image First (D.state files.old.first).bytes) (λ shape. imported_piece shape (D.state files.old.first).bytes) (λ shape. header_spelling (imported_header serial shape (D.state files.old.first).bytes)) (S.written trace.old) (S.written trace.new) result }
    ensures cause { CopiesWithCause (fault_counts (D.state files.old.first) (D.state files.old.second)) (fault_counts (D.state files.new.first) (D.state files.new.second)) (S.faults trace.old) (S.faults trace.new) result }
{
    let shape = match read_image_shape(&mut files.first, ImageFile::First) {
        Ok(shape) => shape,
        Err(stop) => return Err(stop),
    };
    let opening = match before_base(alloc, serial, shape.cylinders) {
        Ok(opening) => opening,
        Err(NoMemory) => return Err(Stop::NoMemory),
    };
    match copy_pieces(
        alloc,
        &Job::Import { shape },
        files,
        opening.as_slice(),
        trace,
    ) {
        Ok(()) => Ok(shape),
        Err(stop) => Err(stop),
    }
}

/// The shape of two images and of the trace's volume.
fn same_shape(first: ImageShape, second: ImageShape, cylinders: u32) -> Result<ImageShape, Refusal>
    ensures { result ≡ same_shape cylinders first second }
{
    if first != second {
        return Err(Refusal::OtherShape);
    }
    if first.cylinders != cylinders {
        return Err(Refusal::OtherCylinders);
    }
    Ok(first)
}

/// Reads the shape of two images, which has to be one, with the cylinders of the trace's volume.
fn captured_shape<D: Disk + Drop>(files: &mut Files<D>, cylinders: u32) -> Result<ImageShape, Stop>
    ensures shape { D.tells → GivesPiece (λ shape. shape) result (captured_shape cylinders (D.state files.old.first).bytes (D.state files.old.second).bytes) }
    ensures first { IfOk result (λ shape. image_length shape ≡ (D.state files.old.first).length_is) }
    ensures second { IfOk result (λ shape. image_length shape ≡ (D.state files.old.second).length_is) }
    ensures cylinders { IfOk result (λ shape. shape.cylinders ≤ MOST_NARROW_CYLINDERS) }
    ensures same { D.tells → ReadSame (D.state files.old.first) (D.state files.old.second) (D.state files.new.first) (D.state files.new.second) }
    ensures length { SameLengths (D.state files.old.first) (D.state files.old.second) (D.state files.new.first) (D.state files.new.second) }
    ensures cause { ReadsWithCause (fault_counts (D.state files.old.first) (D.state files.old.second)) (fault_counts (D.state files.new.first) (D.state files.new.second)) result }
{
    let first = match read_image_shape(&mut files.first, ImageFile::First) {
        Ok(shape) => shape,
        Err(stop) => return Err(stop),
    };
    let second = match read_image_shape(&mut files.second, ImageFile::Second) {
        Ok(shape) => shape,
        Err(stop) => return Err(stop),
    };
    match same_shape(first, second, cylinders) {
        Ok(shape) => Ok(shape),
        Err(refusal) => Err(Stop::Refused(refusal)),
    }
}

/// Puts an entry after a trace for each track that differs between the two files, images of one shape: the track is replaced by the
/// second's, on this volume of the trace and at this stamp. The entries are of the trace's version, which is 1 or 2. If something in an image can't be taken nothing is written.
pub fn capture<D: Disk + Drop, S: Sink>(
    alloc: Global,
    files: &mut Files<D>,
    volume: NamedVolume,
    stamp: Stamp,
    trace: &mut S,
) -> Result<ImageShape, Stop>
    requires stamp { 1 ≤ stamp.0 }
    requires version { IsTrue (is_version volume.version) }
    ensures captured { D.tells → EndsBridge (captured_shape volume.cylinders (D.state files.old.first).bytes (D.state files.old.second).bytes) (λ shape. captured_piece shape volume stamp.0 (D.state files.old.first).bytes (D.state files.old.second).bytes) (λ shape. captured_bytes shape volume stamp.0 (D.state files.old.first).bytes (D.state files.old.second).bytes) (S.written trace.old) (S.written trace.new) result }
    ensures cause { CopiesWithCause (fault_counts (D.state files.old.first) (D.state files.old.second)) (fault_counts (D.state files.new.first) (D.state files.new.second)) (S.faults trace.old) (S.faults trace.new) result }
{
    let shape = match captured_shape(files, volume.cylinders) {
        Ok(shape) => shape,
        Err(stop) => return Err(stop),
    };
    let job = Job::Capture {
        shape,
        volume,
        stamp,
    };
    match copy_pieces(alloc, &job, files, &[], trace) {
        Ok(()) => Ok(shape),
        Err(stop) => Err(stop),
    }
}

/// The shape of the image of a volume device of this length.
fn exported_shape(
    device_type: DeviceType,
    cylinders: u32,
    length: u64,
) -> Result<ImageShape, Refusal>
    ensures { result ≡ exported_shape device_type cylinders length }
{
    if cylinders > u32::from(MOST_NARROW_CYLINDERS) {
        return Err(Refusal::TooLarge);
    }
    if cylinders < 1 || length < need(cylinders) {
        return Err(Refusal::NoLabel);
    }
    Ok(ImageShape {
        device_type,
        cylinders,
    })
}

/// Writes the first file, a volume device of so many cylinders, as an image of this type of device. If a slot holds no track, or one
/// for which the device has no room, nothing is written.
pub fn export<D: Disk + Drop, S: Sink>(
    alloc: Global,
    files: &mut Files<D>,
    device_type: DeviceType,
    cylinders: u32,
    image: &mut S,
) -> Result<ImageShape, Stop>
    ensures exported { D.tells → EndsBridge (exported_shape device_type cylinders (D.state files.old.first).length_is) (λ shape. exported_piece shape.device_type (D.state files.old.first).bytes) (λ shape. exported_bytes shape (D.state files.old.first).bytes) (S.written image.old) (S.written image.new) result }
    ensures cause { CopiesWithCause (fault_counts (D.state files.old.first) (D.state files.old.second)) (fault_counts (D.state files.new.first) (D.state files.new.second)) (S.faults image.old) (S.faults image.new) result }
{
    let shape = match exported_shape(device_type, cylinders, files.first.length()) {
        Ok(shape) => shape,
        Err(refusal) => return Err(Stop::Refused(refusal)),
    };
    let job = Job::Export {
        device_type,
        cylinders,
    };
    match copy_pieces(alloc, &job, files, &device_header(device_type), image) {
        Ok(()) => Ok(shape),
        Err(stop) => Err(stop),
    }
}
