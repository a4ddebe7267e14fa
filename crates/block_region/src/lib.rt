//! A region of memory that is taken once and handed out in chains of blocks.
#![tactic(auto)]

mod chain;
mod laws;
mod region;
mod runs;

pub use chain::{Chain, Full};
pub use laws::takes_keep_chains;
pub use region::Region;
pub use runs::blocks_of;
pub use xrc_edge::BLOCK;
