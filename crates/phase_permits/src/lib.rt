//! What one worker does in one phase: its permit to perform requests, and the receipt that it
//! leaves.
#![tactic(auto)]

mod done;
mod kinds;
mod permit;

pub use done::Done;
pub use kinds::{JoinedPhase, Kind, SplitPhase};
pub use permit::{JoinedPermit, JoinedReceipt, Permit, Receipt, SplitPermit, SplitReceipt};
pub use phase_transactions::{PermitFault, WorkerStart};
pub use worker_slices::{Counters, Hot, Slices, Stash};
