//! A group's images applied to volumes. The volumes are lent to several jobs at once, worked on each by itself, and given back.
#![tactic(auto)]

mod applying;
mod cuts;
mod loans;
mod pace;
mod rising;
mod sides;

pub use applying::apply_volume;
pub use loans::{give_back_all, lend_all};
pub use pace::{SyncPace, sync_some};
pub use sides::{apply_all, apply_body, sync_all};
pub use xrc_journal::VolumeJob;
