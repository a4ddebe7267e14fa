//! Writes of a controller that wait in a queue until a group is formed, and the groups that are formed of them.
#![tactic(auto)]

mod carrier;
mod entry;
mod formed;
mod head;
mod laws;
mod moving;
mod placed;
mod pushing;
mod queue;
mod room;
mod waiting;

pub use block_region::{Chain, Region};
pub use carrier::{Carrier, Everything};
pub use ckd_track::Cause;
pub use formed::Formed;
pub use head::EntryHead;
pub use laws::groups_keep_entries;
pub use queue::Queue;
pub use room::Room;
