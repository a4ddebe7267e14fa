use crash_plant::Spot;
use pair_table::{Level, PairTable};
use tod_stamp::{Session, Stamp};

/// What a site's devices mean.
#[derive(Drop)]
pub struct Means {
    pub session: Session,
    pub level: Level,
    /// The time of the last group that counts, or of the mark.
    pub time: Stamp,
    pub table: PairTable,
    /// The spot from which the journal's records count.
    pub from: Spot,
    /// Whether the session has ended.
    pub ended: bool,
}
