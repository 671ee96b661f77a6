//! The referee of an application of your own: it judges a history that is given as lines, whoever
//! made it, on one thread and by the application's model alone.
//!
//! You implement `Checkable` beside `Application`: whether two replies are the same.
#![tactic(auto)]

mod marks;
mod referee;

pub use referee::{Checkable, HistoryFault, HistoryLine, check_history};
