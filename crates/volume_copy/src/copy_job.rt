use copy_progress::Claim;

/// What is copied, and whereto.
#[derive(Clone, Copy, Debug)]
pub struct CopyJob {
    /// The volume that is copied.
    pub source: u16,
    /// The volume to which it is copied.
    pub target: u16,
    pub claim: Claim,
}
