//! The transactions of one worker in one phase: the shards that a request needs, what it does on
//! them, and its reply.
#![tactic(auto)]

mod answers;
mod asked;
mod deeds;
mod fault;
mod homes;
mod taken;
mod transaction;
mod worker;

pub use asked::HotStore;
pub use fault::PermitFault;
pub use worker::{Worker, WorkerStart};
