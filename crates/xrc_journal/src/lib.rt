//! The journal: records behind gates, one after another in data sets, and the walk over them.
#![tactic(auto)]

mod body;
mod buffer;
mod drawn;
mod filling;
mod header;
mod item;
mod job;
mod journal;
mod laws;
mod layout;
mod lengths;
mod reading;
mod spot;

pub use body::Body;
pub use crash_plant::Spot;
pub use job::VolumeJob;
pub use journal::{AppendError, Journal};
pub use laws::{
    groups_are_walked, walks_are_one, walks_enter_sets_in_turn, walks_grow_at_their_end,
};
pub use layout::{
    AROUND, BESIDE_CONTROLS, IMAGE_FRONT, MOST_BODY, NARROW_ROW_ITEM, OF_CONTROL, ROW_ITEM,
};
pub use lengths::journal_length;
pub use reading::{BodyItem, first_item};
pub use spot::{WalkError, Walked, walk};
