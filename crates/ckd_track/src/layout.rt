//! The numbers of a track, of the slots of a volume, and of the writes that wait. Each is said here alone.

use xrc_edge::{BLOCK, TRACKS_OF_CYLINDER};

/// The sizes of a track's records add up to at most this.
pub const CAPACITY: usize = 56_664;

/// The most bytes of an update: as many as the content of one record without key that fills a track.
pub const LONGEST_UPDATE: usize = CAPACITY - 8;

/// The length of the longest image, which is that of one record without key that fills a track.
pub const LONGEST_IMAGE: usize = 6 + LONGEST_UPDATE;

/// The bytes of an entry before a track's image.
pub const BEFORE_IMAGE: usize = 15;

/// The length of the longest entry, which is that of a whole track with the longest image.
pub const LONGEST_ENTRY: usize = BEFORE_IMAGE + LONGEST_IMAGE;

/// The length of a slot.
pub const SLOT_LENGTH: usize = 57_344;

/// The place of a volume's first slot, after the label.
pub const FIRST_SLOT: u64 = 512;

/// The bytes of a cylinder's slots.
pub const CYLINDER_LENGTH: u64 = TRACKS_OF_CYLINDER as u64 * SLOT_LENGTH as u64;

/// A run has at most this many writes, and a controller at most this many entries that wait.
pub const WRITES_OF_RUN: usize = 32;

/// The blocks of the longest entry.
pub const BLOCKS_OF_ENTRY: usize = (LONGEST_ENTRY + BLOCK - 1) / BLOCK;

/// The blocks of a controller's longest entries that wait.
pub const BLOCKS_OF_QUEUE: usize = WRITES_OF_RUN * BLOCKS_OF_ENTRY;
