//! Items put into a buffer.

ghost use Rattle.std.specs.Prelude.{◌≡◌, ◌≤◌, ◌+◌, ◌∷◌, ◌++◌, [], length};
ghost use Rattle.std.specs.Int.{w16, w32, to_be_bytes};
ghost use Rattle.crash_plant.specs.Bytes.{patched};

use crate::layout::IMAGE_FRONT;
use byteorder::{BigEndian, ByteOrder};

/// Writes bytes at a place.
fn put_bytes(buffer: &mut [u8], place: usize, bytes: &[u8])
    requires { place + length bytes.now ≤ length buffer.old }
    ensures { buffer.new ≡ patched place bytes.now buffer.old }
{
    buffer[place..place + bytes.len()].copy_from_slice(bytes);
}

/// Writes two parts one after the other at a place, and a closed gate after them.
pub(crate) fn put_parts(buffer: &mut [u8], place: usize, front: &[u8], back: &[u8])
    requires { place + length front.now + length back.now + 1 ≤ length buffer.old }
    ensures { buffer.new ≡ patched place (front.now ++ back.now ++ 0 ∷ []) buffer.old }
{
    put_bytes(buffer, place, front);
    put_bytes(buffer, place + front.len(), back);
    put_bytes(buffer, place + front.len() + back.len(), &[0]);
}

/// What stands before the image in an image's item.
pub(crate) fn image_front(device: u16, track: u32) -> [u8; IMAGE_FRONT]
    ensures { result ≡ 1 ∷ to_be_bytes w16 device ++ to_be_bytes w32 track }
{
    let mut front = [1, 0, 0, 0, 0, 0, 0];
    BigEndian::write_u16(&mut front[1..3], device);
    BigEndian::write_u32(&mut front[3..7], track);
    front
}

/// The device of the item of a row that goes.
pub(crate) fn device_bytes(device: u16) -> [u8; 2]
    ensures { result ≡ to_be_bytes w16 device }
{
    device.to_be_bytes()
}
