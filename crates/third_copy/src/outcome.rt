use pair_table::DeviceList;
use site_means::Means;

/// What was copied.
#[derive(Drop)]
pub struct CopyOutcome {
    /// What the devices mean.
    pub means: Means,
    /// The devices of the duplex pairs whose volumes were copied, in the order of the rows.
    pub done: DeviceList,
    /// The devices of the other duplex pairs: the volume failed, or its target did.
    pub failed: DeviceList,
}
