//! The words that are no names of files.

ghost use Rattle.std.specs.Prelude.{◌≤◌, IfOk};

use crate::failure::Failure;
use ckd_image::DeviceType;
use tod_stamp::{Serial, Stamp};

pub fn read_serial(word: &str) -> Result<Serial, Failure> {
    match Serial::read(word.as_bytes()) {
        Ok(serial) => Ok(serial),
        Err(_) => Err(Failure::Words),
    }
}

/// A stamp of 16 hexadecimal digits, at least 1.
pub fn read_stamp(word: &str) -> Result<Stamp, Failure>
    ensures { IfOk result (λ stamp. 1 ≤ stamp.0) }
{
    match Stamp::read(word.as_bytes()) {
        Ok(stamp) if stamp.0 >= 1 => Ok(stamp),
        _ => Err(Failure::Words),
    }
}

pub fn read_device_type(word: &str) -> Result<DeviceType, Failure> {
    if word == "3380" {
        Ok(DeviceType::Ibm3380)
    } else if word == "3390" {
        Ok(DeviceType::Ibm3390)
    } else if word == "9345" {
        Ok(DeviceType::Ibm9345)
    } else {
        Err(Failure::Words)
    }
}
