/// Why a state isn't written or read.
#[derive(Clone, Copy, Debug, PartialEq, Eq)]
pub enum StateError {
    /// The slot is damaged, whose first byte stands at this place of the device.
    Damaged(u64),
    /// The device has failed.
    Fault,
    /// There was no memory.
    NoMemory,
}
