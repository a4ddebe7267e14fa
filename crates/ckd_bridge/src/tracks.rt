//! Reading one track: of an image, and of a volume device.

ghost use Rattle.std.specs.Prelude.{◌≡◌, ◌≤◌, ◌<◌, ◌+◌, ◌*◌, ◌^◌, ◌∷◌, [], length, slice_range, IfOk, OnOk, IsTrue};
ghost use Rattle.tod_stamp.specs.Fields.{within};
ghost use Rattle.xrc_edge.specs.declared.limits.TheConstants.{MOST_NARROW_CYLINDERS, TRACKS_OF_CYLINDER};
ghost use Rattle.ckd_track.specs.Images.{image_at};
ghost use Rattle.ckd_track.specs.SlotPlaces.{slot_end, track_read};
ghost use Rattle.ckd_image.specs.ImageTracks.{device_track_at};
ghost use Rattle.ckd_image.specs.Shapes.{image_length};
ghost use Rattle.ckd_bridge.specs.declared.stop.Refusal.TheVariants.{NoTrack};
ghost use Rattle.ckd_bridge.specs.Pieces.{GivesPiece, IsNoFault, IsNoRefusal, ReadsWithCause};
ghost use Rattle.ckd_bridge.specs.Tracks.{named_track, shape_of_image, there_or, track_of_device, track_of_slot};

use crate::stop::{ImageFile, Refusal, Stop};
use ckd_image::{HEADER_LENGTH, ImageShape, ShapeFault, TrackFault, read_shape, read_track};
use ckd_track::{ImageError, SLOT_LENGTH, Track, slot_place};
use crash_plant::Disk;
use std::alloc::Global;
use xrc_edge::Failed;

/// Reads from a place on.
pub(crate) fn read_at<D: Disk>(disk: &mut D, place: u64, into: &mut [u8]) -> Result<(), Stop>
    requires { place + length into.old ≤ (D.state disk.old).length_is }
    ensures bytes { D.tells → OnOk result (into.new ≡ slice_range (D.state disk.old).bytes place (place + length into.old)) }
    ensures refusal { IsNoRefusal result }
    ensures same { D.tells → (D.state disk.new).bytes ≡ (D.state disk.old).bytes }
    ensures length { (D.state disk.new).length_is ≡ (D.state disk.old).length_is }
    ensures cause { ReadsWithCause ((D.state disk.old).faults ∷ []) ((D.state disk.new).faults ∷ []) result }
{
    match disk.read(place, into) {
        Ok(()) => Ok(()),
        Err(Failed) => Err(Stop::ReadFault),
    }
}

/// Reads so many bytes from a place on.
fn read_bytes<D: Disk>(
    alloc: Global,
    disk: &mut D,
    place: u64,
    size: usize,
) -> Result<Vec<u8>, Stop>
    requires { place + size ≤ (D.state disk.old).length_is }
    ensures bytes { D.tells → IfOk result (λ bytes. bytes.items ≡ slice_range (D.state disk.old).bytes place (place + size)) }
    ensures long { IfOk result (λ bytes. length bytes.items ≡ size) }
    ensures refusal { IsNoRefusal result }
    ensures same { D.tells → (D.state disk.new).bytes ≡ (D.state disk.old).bytes }
    ensures length { (D.state disk.new).length_is ≡ (D.state disk.old).length_is }
    ensures cause { ReadsWithCause ((D.state disk.old).faults ∷ []) ((D.state disk.new).faults ∷ []) result }
{
    let mut bytes = vec![in alloc; 0u8; size]?;
    match read_at(disk, place, bytes.as_mut_slice()) {
        Ok(()) => Ok(bytes),
        Err(stop) => Err(stop),
    }
}

/// Reads the shape of an image.
pub(crate) fn read_image_shape<D: Disk>(image: &mut D, file: ImageFile) -> Result<ImageShape, Stop>
    ensures shape { D.tells → GivesPiece (λ shape. shape) result (shape_of_image file (D.state image.old).bytes) }
    ensures long { IfOk result (λ shape. image_length shape ≡ (D.state image.old).length_is) }
    ensures cylinders { IfOk result (λ shape. IsTrue (within 1 MOST_NARROW_CYLINDERS shape.cylinders)) }
    ensures same { D.tells → (D.state image.new).bytes ≡ (D.state image.old).bytes }
    ensures length { (D.state image.new).length_is ≡ (D.state image.old).length_is }
    ensures cause { ReadsWithCause ((D.state image.old).faults ∷ []) ((D.state image.new).faults ∷ []) result }
{
    let length = image.length();
    if length < HEADER_LENGTH as u64 {
        return Err(Stop::Refused(Refusal::Image(file, ShapeFault::NoImage)));
    }
    let mut header = [0; HEADER_LENGTH];
    match read_at(image, 0, &mut header) {
        Ok(()) => {}
        Err(stop) => return Err(stop),
    }
    match read_shape(&header, length) {
        Ok(shape) => Ok(shape),
        Err(fault) => Err(Stop::Refused(Refusal::Image(file, fault))),
    }
}

/// The track that its bytes in an image are.
fn image_track(alloc: Global, file: ImageFile, number: u32, bytes: &[u8]) -> Result<Track, Stop>
    requires track { number < TRACKS_OF_CYLINDER * MOST_NARROW_CYLINDERS }
    requires short { length bytes.now < 2 ^ 31 }
    ensures track { GivesPiece (λ track. track) result (named_track file number (device_track_at number bytes.now)) }
    ensures cause { IsNoFault result }
{
    match read_track(alloc, number, bytes) {
        Ok(track) => Ok(track),
        Err(TrackFault::NoMemory) => Err(Stop::NoMemory),
        Err(fault) => Err(Stop::Refused(Refusal::Track(file, number, fault))),
    }
}

/// Reads the track of that number from an image.
pub(crate) fn read_image_track<D: Disk>(
    alloc: Global,
    image: &mut D,
    file: ImageFile,
    shape: ImageShape,
    number: u32,
) -> Result<Track, Stop>
    requires long { image_length shape ≤ (D.state image.old).length_is }
    requires cylinders { shape.cylinders ≤ MOST_NARROW_CYLINDERS }
    requires number { number < TRACKS_OF_CYLINDER * shape.cylinders }
    ensures track { D.tells → GivesPiece (λ track. track) result (track_of_device file shape.device_type (D.state image.old).bytes number) }
    ensures same { D.tells → (D.state image.new).bytes ≡ (D.state image.old).bytes }
    ensures length { (D.state image.new).length_is ≡ (D.state image.old).length_is }
    ensures cause { ReadsWithCause ((D.state image.old).faults ∷ []) ((D.state image.new).faults ∷ []) result }
{
    let size = shape.device_type.track_bytes() as usize;
    match read_bytes(alloc, image, shape.device_type.track_place(number), size) {
        Ok(bytes) => image_track(alloc, file, number, bytes.as_slice()),
        Err(stop) => Err(stop),
    }
}

/// The track whose image a slot begins with.
fn slot_track(alloc: Global, number: u32, slot: &[u8]) -> Result<Track, Stop>
    ensures track { GivesPiece (λ track. track) result (there_or (NoTrack number) (track_read (image_at slot.now))) }
    ensures cause { IsNoFault result }
{
    match Track::decode_image(alloc, slot) {
        Ok((track, _)) => Ok(track),
        Err(ImageError::NoMemory) => Err(Stop::NoMemory),
        Err(ImageError::Short) => Err(Stop::Refused(Refusal::NoTrack(number))),
        Err(ImageError::TooBig) => Err(Stop::Refused(Refusal::NoTrack(number))),
        Err(ImageError::Order(_)) => Err(Stop::Refused(Refusal::NoTrack(number))),
    }
}

/// Reads the track of that number from a volume device.
pub(crate) fn read_slot_track<D: Disk>(
    alloc: Global,
    volume: &mut D,
    number: u32,
) -> Result<Track, Stop>
    requires { slot_end number ≤ (D.state volume.old).length_is }
    ensures track { D.tells → GivesPiece (λ track. track) result (track_of_slot (D.state volume.old).bytes number) }
    ensures same { D.tells → (D.state volume.new).bytes ≡ (D.state volume.old).bytes }
    ensures length { (D.state volume.new).length_is ≡ (D.state volume.old).length_is }
    ensures cause { ReadsWithCause ((D.state volume.old).faults ∷ []) ((D.state volume.new).faults ∷ []) result }
{
    match read_bytes(alloc, volume, slot_place(number), SLOT_LENGTH) {
        Ok(slot) => slot_track(alloc, number, slot.as_slice()),
        Err(stop) => Err(stop),
    }
}
