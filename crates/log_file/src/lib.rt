//! The file of a log, whatever its lines are: how it is opened and locked, where what is cut off it
//! is kept, and what can be wrong with it.
#![tactic(auto)]

mod faults;
mod opening;
mod reading;
mod streams;
mod tails;

pub use faults::{LogCause, LogFileFault};
pub use opening::{FileAt, open_locked};
pub use reading::FromStart;
pub use tails::keep_tail;
