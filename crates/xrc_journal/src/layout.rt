//! The numbers of items, of bodies, and of a journal. Each is said here alone.

use ckd_track::BLOCKS_OF_QUEUE;
use crash_plant::{FRONT, HEADER, SWITCH};
use pair_table::{NARROW_ROW_LENGTH, ROW_LENGTH};
use xrc_edge::{BLOCK, MOST_CONTROLS};

/// The bytes of a device and a track of it.
pub(crate) const TRACK: usize = 6;

/// The bytes of an image's item before the image: the tag, the device and the track.
pub const IMAGE_FRONT: usize = 1 + TRACK;

/// The bytes of a row's item.
pub const ROW_ITEM: usize = 1 + ROW_LENGTH;

/// The bytes of an item of a row of version 1.
pub const NARROW_ROW_ITEM: usize = 1 + NARROW_ROW_LENGTH;

/// The bytes of a gate and a header, and the room that is kept after a group for a switch.
pub const AROUND: u64 = FRONT + SWITCH;

/// The bytes of a switch behind its gate.
pub(crate) const BEHIND_GATE: usize = HEADER + 2;

/// The bytes of a journal beside those for the controllers.
pub const BESIDE_CONTROLS: u64 = 8_192;

/// The bytes of a journal for each controller: the blocks of its longest entries that wait.
pub const OF_CONTROL: u64 = (BLOCKS_OF_QUEUE * BLOCK) as u64;

/// The most bytes of a body: those of a journal of the most controllers.
pub const MOST_BODY: u32 = (BESIDE_CONTROLS + MOST_CONTROLS as u64 * OF_CONTROL) as u32;
