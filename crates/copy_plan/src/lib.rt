//! Copy plans: which tracks of a volume are still to be copied, and how many of the copied ones wait for their group.
#![tactic(auto)]

mod plan;

pub use plan::CopyPlan;
