//! What the write of an entry names.

use tod_stamp::Stamp;

/// The head of an entry: its controller, the volume of that controller, the number of its track there, the host's stamp, and
/// whether the track is replaced as a whole.
#[derive(Clone, Copy, Debug, PartialEq, Eq)]
pub struct EntryHead {
    pub control: u16,
    pub volume: u16,
    pub track: u32,
    pub stamp: Stamp,
    pub whole: bool,
}
