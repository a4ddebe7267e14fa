//! Tracks of count-key-data records: what a write does to one, and the one image of each as bytes.
#![tactic(auto)]

mod changes;
mod decoding;
mod entry;
mod fault;
mod fronts;
mod head;
mod laws;
mod layout;
mod places;
mod reading;
mod rec;
mod recs;
mod slot;
mod slot_places;
mod spelling;
mod track;
mod write;

pub use decoding::decode_records;
pub use entry::{entry_len, put_entry};
pub use fault::ImageError;
pub use laws::{images_are_read, images_read_back};
pub use layout::{
    BEFORE_IMAGE, BLOCKS_OF_ENTRY, BLOCKS_OF_QUEUE, CAPACITY, CYLINDER_LENGTH, FIRST_SLOT,
    LONGEST_ENTRY, LONGEST_IMAGE, LONGEST_UPDATE, SLOT_LENGTH, WRITES_OF_RUN,
};
pub use reading::image_length;
pub use rec::{Rec, RecList};
pub use slot::Slot;
pub use slot_places::slot_place;
pub use track::Track;
pub use write::{Batch, Cause, Kind, Write, WriteList};
