//! The numbers of a device image. Each is said here alone.

/// The bytes of a device's header.
pub const HEADER_LENGTH: usize = 512;

/// The bytes of a track's home address: a byte 0, and the track's cylinder and head.
pub(crate) const HOME_LENGTH: usize = 5;

/// The bytes of a count field: cylinder, head, number, length of the key and length of the content.
pub(crate) const COUNT_LENGTH: usize = 8;

/// The bytes of a track before its first record: the home address, and record zero with its eight bytes.
pub(crate) const FRONT_LENGTH: usize = HOME_LENGTH + COUNT_LENGTH + 8;

/// What stands after the last record of a track.
pub(crate) const END_MARK: [u8; 8] = [255; 8];

/// Numbers of records rise and are bytes above 0, so a track has at most this many.
pub(crate) const MOST_RECORDS: u32 = 255;
