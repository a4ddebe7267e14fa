//! Sets of a volume's tracks, a bit a track.
#![tactic(auto)]

mod lanes;
mod laws;
mod map;
mod plain;
mod words;

pub use laws::sets_have_their_tracks;
pub use map::ChangeMap;
