//! The numbers of a site's control and state, and of what stands around a body in a journal. Each is said here alone.

/// The length of a control.
pub const CONTROL_LENGTH: u64 = 1_024;

/// The length of a state.
pub const STATE_LENGTH: u64 = 16_384;

/// The length of what stands between a record's gate and its body.
pub const HEADER: usize = 21;

/// The length of a gate and a header.
pub const FRONT: u64 = 1 + HEADER as u64;

/// The length of a switch: a gate, a header, and the number of a data set. So much room is kept after each group.
pub const SWITCH: u64 = FRONT + 2;
