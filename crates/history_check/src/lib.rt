//! Whether a history that some engine wrote is one of an auction of one thread.
//!
//! `specs/Texts.antt` says what the lines of a text are, `specs/Checking.antt` what is found of
//! them.
#![tactic(auto)]

mod history;
mod lines;
mod replay;

pub use history::{check_history, lines_are_placed, texts_are_lines};
pub use lines::{CheckFault, CommitId, Order, Verdict, Wrong, read_line};
pub use replay::Replay;
