//! Jobs done side by side, each but the first by a thread of its own, or one after the other.
#![tactic(auto)]

mod fault;
mod threads;

pub use fault::JobFault;
pub use threads::{Job, work_all, work_in_turn};
