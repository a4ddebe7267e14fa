//! What a line says.

use ckd_track::Track;
use write_trace::{Entry, VolumeHead};

/// What a line of text says of a trace.
#[derive(Debug, Drop)]
pub enum Line {
    /// Nothing: it is empty, or a remark.
    Nothing,
    /// The version of the trace.
    Version(u8),
    /// The next volume of the header.
    Volume(VolumeHead),
    /// The next base track of the header: its volume, its number there, and what it holds.
    Base(u16, u32, Track),
    /// The next entry.
    Told(Entry),
}
