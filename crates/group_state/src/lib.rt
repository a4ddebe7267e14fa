//! The state that the readers of the controllers and the mover share, as one sequential machine, and the laws that tie it to the theorem
//! on cuts: what is called and answered is a legal history, and what the state keeps and each form shows is that history's.
#![tactic(auto)]

mod control;
mod forming;
mod history_laws;
mod joining;
mod phase;
mod state;
mod volume;
mod volumes;

pub use history_laws::{
    forms_give_groups, forms_show_own_parts, resumes_owe_mapped, runs_are_histories,
    runs_keep_to_cuts, sizes_are_told,
};
pub use joining::{CopyJoin, Forming, Joining, RunJoin};
pub use state::GroupState;
