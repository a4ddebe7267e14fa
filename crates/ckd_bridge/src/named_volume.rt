//! The volume of a serial in a trace.

ghost use Rattle.std.specs.Prelude.{◌≡◌, ◌≤◌, length, bytes_eq};
ghost use Rattle.std.specs.List.{position};
ghost use Rattle.xrc_edge.specs.declared.limits.TheConstants.{MOST_CONTROL_VOLUMES};
ghost use Rattle.ckd_bridge.specs.NamedVolumes.{first_of_serial, volume_numbered};

use crate::stop::{Refusal, Stop};
use tod_stamp::Serial;
use write_trace::VolumeHead;
use xrc_edge::MOST_CONTROL_VOLUMES;

/// A volume of a trace: the trace's version, its number there, and its cylinders.
#[derive(Clone, Copy, Debug, PartialEq, Eq)]
pub struct NamedVolume {
    pub version: u8,
    pub number: u16,
    pub cylinders: u32,
}

/// The number of the first volume of this serial.
fn first_of_serial(volumes: &[VolumeHead], serial: Serial) -> Option<usize>
    ensures { result ≡ first_of_serial serial volumes.now }
{
    volumes
        .iter()
        .position(|volume| volume.serial.as_bytes() == serial.as_bytes())
}

/// The volume of this serial in a trace of this version.
pub(crate) fn volume_numbered(
    version: u8,
    volumes: &[VolumeHead],
    serial: Serial,
) -> Result<NamedVolume, Stop>
    requires { length volumes.now ≤ MOST_CONTROL_VOLUMES }
    ensures { result ≡ volume_numbered version volumes.now (first_of_serial serial volumes.now) }
{
    match first_of_serial(volumes, serial) {
        Some(number) => Ok(NamedVolume {
            version,
            number: number as u16,
            cylinders: volumes[number].cylinders,
        }),
        None => Err(Stop::Refused(Refusal::NoVolume)),
    }
}
