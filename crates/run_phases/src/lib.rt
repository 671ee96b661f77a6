//! The phases of a run that begins from a state, each of which is shown to a board.
#![tactic(auto)]

mod course;
mod faults;
mod phase;
mod plan;

pub use course::{Outcome, run_from};
pub use faults::RunFault;
pub use phase::Workload;
