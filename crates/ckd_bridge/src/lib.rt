//! A bridge between traces and volume devices here and the device images of the Hercules emulator: an image becomes a trace's base
//! tracks, what differs between two images becomes writes, and a volume device becomes an image. One track is in memory at a time.
#![tactic(auto)]

mod commands;
mod copying;
mod files;
mod followed_trace;
mod job;
mod laws;
mod named_volume;
mod pieces;
mod sink;
mod stop;
mod tracks;

pub use commands::{capture, export, import};
pub use files::Files;
pub use followed_trace::find_volume;
pub use laws::{exports_read_back, imports_are_traces};
pub use named_volume::NamedVolume;
pub use sink::{FileSink, Sink};
pub use stop::{ImageFile, Refusal, Stop};
