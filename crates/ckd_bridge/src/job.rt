//! What is made of the files that are read.

ghost use Rattle.std.specs.Prelude.{◌≡◌, ◌≤◌, ◌<◌, ◌*◌, ◌^◌};
ghost use Rattle.xrc_edge.specs.declared.limits.TheConstants.{MOST_NARROW_CYLINDERS};
ghost use Rattle.ckd_bridge.specs.Jobs.{job_count, job_cylinders};

use crate::named_volume::NamedVolume;
use ckd_image::{DeviceType, ImageShape};
use tod_stamp::Stamp;
use xrc_edge::TRACKS_OF_CYLINDER;

/// What is made of the files, track by track: an image's base tracks; the writes by which the first of two images becomes the second,
/// on this volume of a trace and at this stamp; or an image of this type from a volume device.
#[derive(Clone, Copy, Debug)]
pub(crate) enum Job {
    Import {
        shape: ImageShape,
    },
    Capture {
        shape: ImageShape,
        volume: NamedVolume,
        stamp: Stamp,
    },
    Export {
        device_type: DeviceType,
        cylinders: u32,
    },
}

impl Job {
    /// How many tracks there are.
    pub(crate) fn count(&self) -> u32
        requires { job_cylinders self.now ≤ MOST_NARROW_CYLINDERS }
        ensures { result ≡ job_count self.now }
    {
        let cylinders = match self {
            Job::Import { shape } => shape.cylinders,
            Job::Capture { shape, .. } => shape.cylinders,
            Job::Export { cylinders, .. } => *cylinders,
        };
        TRACKS_OF_CYLINDER * cylinders
    }
}
