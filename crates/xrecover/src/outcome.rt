use pair_table::DeviceList;
use site_means::Means;

/// What was recovered.
#[derive(Drop)]
pub struct Outcome {
    /// What the devices mean.
    pub means: Means,
    /// The devices of the duplex pairs whose volumes failed, in the order of the rows.
    pub failed: DeviceList,
}
