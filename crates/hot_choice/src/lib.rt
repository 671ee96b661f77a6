//! The choice of hot objects: those that the next split phase splits.
#![tactic(auto)]

mod choice;
mod runs;

pub use choice::{choose_hot, choose_hot_after};
