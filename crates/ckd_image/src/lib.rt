//! CKD device images, uncompressed, as the Hercules emulator has them: the header of a device, and the bytes of each track.
#![tactic(auto)]

mod fault;
mod front;
mod header;
mod laws;
mod layout;
mod reading;
mod shape;
mod spelling;

pub use fault::{ShapeFault, TrackFault};
pub use header::{device_header, read_shape};
pub use laws::{headers_are_read_back, image_tracks_are_read, image_tracks_are_read_back};
pub use layout::HEADER_LENGTH;
pub use reading::read_track;
pub use shape::{DeviceType, ImageShape};
pub use spelling::fitted_track;
