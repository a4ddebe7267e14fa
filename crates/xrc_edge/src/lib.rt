//! The edge of the product: sources of bytes that count their faults, the lists that its calls take and give, the block, and the limits.
#![tactic(auto)]

mod block;
mod file_source;
mod limits;
mod list;
mod memory_source;
mod outcome;
mod source;
mod text;

pub use block::BLOCK;
pub use file_source::FileSource;
pub use limits::{
    FEWEST_JOURNALS, LONGEST_LINE, LONGEST_TEXT, LONGEST_TRACE, MOST_CONTROL_VOLUMES,
    MOST_CONTROLS, MOST_CYLINDERS, MOST_JOURNALS, MOST_LINES, MOST_NARROW_CYLINDERS,
    MOST_SITE_VOLUMES, TRACKS_OF_CYLINDER,
};
pub use list::{Bytes, List};
pub use memory_source::MemorySource;
pub use outcome::{Failed, NoMemory};
pub use source::Source;
pub use text::Text;
