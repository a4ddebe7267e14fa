//! A label, and the 14 bytes that spell it.

ghost use Rattle.std.specs.Prelude.{◌≡◌, ◌<◌, ◌^◌, length, take, drop, codes, bytes_eq, IsTrue};
ghost use Rattle.std.specs.Int.{w32, from_be_bytes, to_be_bytes};
ghost use Rattle.tod_stamp.specs.Names.{is_serial};
ghost use Rattle.volume_label.specs.Labels.{holds_cylinders, label_of, label_spelling, volume_need};

use ckd_track::{CYLINDER_LENGTH, FIRST_SLOT};
use tod_stamp::Serial;

/// The label of a volume device: a serial, and how many cylinders the volume has.
#[derive(Clone, Copy, Debug, PartialEq, Eq)]
pub struct Label {
    pub serial: Serial,
    pub cylinders: u32,
}

/// The bytes of a label.
pub(crate) const LENGTH: usize = 14;

/// How many bytes a device with so many cylinders needs: those before the first slot, and the slots of each cylinder.
pub fn need(cylinders: u32) -> u64
    ensures { result ≡ volume_need cylinders }
{
    FIRST_SLOT + u64::from(cylinders) * CYLINDER_LENGTH
}

/// Whether there is a cylinder, and a device of this length has room for all of them.
fn has_room(device_length: u64, cylinders: u32) -> bool
    ensures { result ≡ holds_cylinders device_length cylinders }
{
    cylinders >= 1 && need(cylinders) <= device_length
}

/// The field of the cylinders.
fn cylinders_field(cylinders: u32) -> [u8; 4]
    ensures field { result ≡ to_be_bytes w32 cylinders }
    ensures fits { cylinders < 2 ^ 32 }
{
    cylinders.to_be_bytes()
}

/// The bytes of a label: `XVOL`, the serial's field of 6 bytes, and the cylinders in 4, most significant byte first.
pub(crate) fn encode_label(label: &Label) -> [u8; 14]
    ensures spelled { result ≡ label_spelling label.now }
    ensures serial { IsTrue (is_serial label.now.serial) }
    ensures fits { label.now.cylinders < 2 ^ 32 }
{
    let mut bytes = [0; LENGTH];
    bytes[10..].copy_from_slice(&cylinders_field(label.cylinders));
    bytes[4..10].copy_from_slice(&label.serial.field());
    bytes[..4].copy_from_slice(b"XVOL");
    bytes
}

fn has_mark(bytes: &[u8; LENGTH]) -> bool
    ensures { result ≡ bytes_eq (codes "XVOL") (take 4 bytes.now) }
{
    let mark: &[u8] = b"XVOL";
    mark == &bytes[..4]
}

/// The cylinders in their field.
fn cylinders(bytes: &[u8; LENGTH]) -> u32
    ensures { result ≡ from_be_bytes w32 (drop 10 bytes.now) }
{
    let mut number = [0; 4];
    number.copy_from_slice(&bytes[10..]);
    u32::from_be_bytes(number)
}

/// The label that the first 14 bytes of a device of this length are. None exactly where they begin otherwise than a label, their
/// field of a serial isn't valid, there is no cylinder, or the device has no room for the cylinders.
pub(crate) fn decode_label(bytes: &[u8; 14], device_length: u64) -> Option<Label>
    ensures { result ≡ label_of device_length bytes.now }
{
    if !has_mark(bytes) {
        return None;
    }
    let cylinders = cylinders(bytes);
    match Serial::from_field(&bytes[4..10]) {
        Some(serial) if has_room(device_length, cylinders) => Some(Label { serial, cylinders }),
        _ => None,
    }
}
