//! Where readers pass before they begin an epoch.

/// What each reader passes before its first handover of an epoch.
pub trait Gate {
    /// Lets the reader of a controller pass, at once or after a while.
    fn pass(&self, control: u16);
}

/// Lets every reader pass at once.
#[derive(Clone, Copy, Debug, PartialEq, Eq)]
pub struct FreePass;

impl Gate for FreePass {
    fn pass(&self, _control: u16) {}
}
