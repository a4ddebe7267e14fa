/// What becomes of the labels of the volumes that are redone.
#[derive(Clone, Copy, Debug, PartialEq, Eq)]
pub enum Labelling {
    /// Each gets its primary's serial, and the pair's cylinders.
    AsPrimary,
    /// Each stays as it is.
    AsItIs,
}
