//! The header of a device image.

ghost use Rattle.std.specs.Prelude.{◌≡◌, ◌==◌, take, IfOk, IsTrue};
ghost use Rattle.tod_stamp.specs.Fields.{within};
ghost use Rattle.xrc_edge.specs.declared.limits.TheConstants.{MOST_NARROW_CYLINDERS};
ghost use Rattle.ckd_image.specs.Shapes.{header_bytes, header_front, image_length, is_compressed_mark, shape_at, shape_of_type};

use crate::fault::ShapeFault;
use crate::layout::HEADER_LENGTH;
use crate::shape::{DeviceType, ImageShape};
use byteorder::{ByteOrder, LittleEndian};
use xrc_edge::{MOST_NARROW_CYLINDERS, TRACKS_OF_CYLINDER};

/// The mark of an image, and the marks of a compressed one and of a shadow.
const MARK: &[u8] = b"CKD_P370";

const COMPRESSED: &[u8] = b"CKD_C370";

const SHADOW: &[u8] = b"CKD_S370";

/// The places of the fields of a header.
const HEADS: usize = 8;

const TRACK_SIZE: usize = 12;

const TYPE: usize = 16;

const SEQUENCE: usize = 17;

/// The bytes of a header up to the type.
fn header_front(device_type: DeviceType) -> [u8; SEQUENCE]
    ensures { result ≡ header_front device_type }
{
    let mut bytes = [0; SEQUENCE];
    bytes[..HEADS].copy_from_slice(MARK);
    bytes[HEADS..TRACK_SIZE].copy_from_slice(&TRACKS_OF_CYLINDER.to_le_bytes());
    bytes[TRACK_SIZE..TYPE].copy_from_slice(&device_type.track_bytes().to_le_bytes());
    bytes[TYPE] = device_type.byte();
    bytes
}

/// The header of an image of this type.
pub fn device_header(device_type: DeviceType) -> [u8; HEADER_LENGTH]
    ensures { result ≡ header_bytes device_type }
{
    let mut bytes = [0; HEADER_LENGTH];
    bytes[..SEQUENCE].copy_from_slice(&header_front(device_type));
    bytes
}

fn is_compressed(mark: &[u8]) -> bool
    ensures { result ≡ is_compressed_mark mark.now }
{
    COMPRESSED == mark || SHADOW == mark
}

/// The shape of an image of this type.
fn typed_shape(
    bytes: &[u8; HEADER_LENGTH],
    length: u64,
    device_type: DeviceType,
) -> Result<ImageShape, ShapeFault>
    ensures shape { result ≡ shape_of_type bytes.now length (Some device_type) }
    ensures long { IfOk result (λ shape. image_length shape ≡ length) }
    ensures cylinders { IfOk result (λ shape. IsTrue (within 1 MOST_NARROW_CYLINDERS shape.cylinders)) }
{
    let track = device_type.track_bytes();
    if LittleEndian::read_u32(&bytes[TRACK_SIZE..TYPE]) != track {
        return Err(ShapeFault::TrackSize);
    }
    if bytes[SEQUENCE] != 0 {
        return Err(ShapeFault::OneOfSeveral);
    }
    let cylinder = u64::from(TRACKS_OF_CYLINDER) * u64::from(track);
    let cylinders = length.saturating_sub(HEADER_LENGTH as u64) / cylinder;
    if cylinders < 1 || cylinders > u64::from(MOST_NARROW_CYLINDERS) {
        return Err(ShapeFault::Length);
    }
    let shape = ImageShape {
        device_type,
        cylinders: cylinders as u32,
    };
    if length == shape.length() {
        Ok(shape)
    } else {
        Err(ShapeFault::Length)
    }
}

/// What a file of this length is that begins with these bytes.
pub fn read_shape(bytes: &[u8; HEADER_LENGTH], length: u64) -> Result<ImageShape, ShapeFault>
    ensures shape { result ≡ shape_at bytes.now length }
    ensures long { IfOk result (λ shape. image_length shape ≡ length) }
    ensures cylinders { IfOk result (λ shape. IsTrue (within 1 MOST_NARROW_CYLINDERS shape.cylinders)) }
{
    let mark = &bytes[..HEADS];
    if is_compressed(mark) {
        return Err(ShapeFault::Compressed);
    }
    if MARK != mark {
        return Err(ShapeFault::NoImage);
    }
    if LittleEndian::read_u32(&bytes[HEADS..TRACK_SIZE]) != TRACKS_OF_CYLINDER {
        return Err(ShapeFault::Heads);
    }
    match DeviceType::of_byte(bytes[TYPE]) {
        Some(device_type) => typed_shape(bytes, length, device_type),
        None => Err(ShapeFault::UnknownType),
    }
}
