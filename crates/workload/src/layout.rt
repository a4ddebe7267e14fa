//! The numbers of a generated input. Each is said here alone.

use xrc_edge::TRACKS_OF_CYLINDER;

/// The controllers, each with a trace.
pub const CONTROLS: u16 = 4;

/// The volumes of a controller.
pub const VOLUMES: u16 = 2;

/// The cylinders of each volume.
pub const CYLINDERS: u32 = 1;

/// The tracks of a controller.
pub const TRACKS: u32 = VOLUMES as u32 * CYLINDERS * TRACKS_OF_CYLINDER;

/// The records of a track.
pub const RECORDS: u8 = 4;

/// The bytes of a record's content.
pub const CONTENT: usize = 8;

/// The writes of a controller.
pub const WRITES: u16 = 500;

/// The stamp of the first write.
pub const FIRST_STAMP: u64 = 1_000;

/// The pairs: each volume of a controller with a device of its own.
pub const PAIRS: u16 = CONTROLS * VOLUMES;

/// The journals.
pub const JOURNALS: u16 = 2;

/// The most bytes that a pull of a trace gives.
pub const MOST_OF_PULL: u32 = 65_536;
