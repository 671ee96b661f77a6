//! A run: workers perform their scripts in phases.
#![tactic(auto)]

mod checks;
mod parts;
mod runs;
mod scripts;

pub use auction_rows::Policy;
pub use auction_window::WindowBoard;
pub use checks::Stopped;
pub use hot_choice::{choose_hot, choose_hot_after};
pub use parts::{parts_replay, run_on, run_on_shown};
pub use phase_boards::{Board, NoBoard};
pub use phase_workers::{FreeGate, Gate};
pub use run_phases::{Outcome, RunFault};
pub use runs::{run, run_shown};
pub use scripts::Scripts;
pub use worker_journals::Script;
