/// A place in the journals at which a record may stand.
#[derive(Clone, Copy, Debug, PartialEq, Eq)]
pub struct Spot {
    /// The number of the data set.
    pub set: u16,
    /// The byte in it at which the record's gate stands.
    pub place: u64,
    /// The number of the record.
    pub number: u64,
}
