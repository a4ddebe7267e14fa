//! Events of readers and the mover.

use ckd_track::Batch;
use tod_stamp::Stamp;

/// What a reader of a controller's trace or the mover does. Volumes and tracks are numbered as in that trace.
#[derive(Debug, Drop)]
pub enum Event {
    /// A reader joins a batch.
    Join {
        batch: Batch,
    },

    /// A reader copies a wanted track. The stamp is its controller's floor.
    Copied {
        control: u16,
        volume: u16,
        track: u32,
        stamp: Stamp,
    },

    /// A controller breaks: its writes are known up to this time, and no later one will be.
    Break {
        control: u16,
        upto: Stamp,
    },

    /// A controller has no further write up to this time.
    Raise {
        control: u16,
        upto: Stamp,
    },

    /// The mover forms a group of what waits up to this time.
    Form {
        cut: Stamp,
    },

    /// The mover drops a controller's volume, as its pair is suspended or goes.
    Drop {
        control: u16,
        volume: u16,
    },
}
