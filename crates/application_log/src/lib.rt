//! A log for an application of one's own: the requests that a run committed, one a line, in commit
//! order. What is logged before it is acknowledged is there after a restart.
//!
//! You implement `Loggable`: a request as the bytes of a line, and a line read back as a request.
//! `open_log_file` opens the log at a path: it performs its lines on the opening table, on one thread.
//! `CommitLog` then puts the lines of a part of a history by with one call.
#![tactic(auto)]

mod commit_log;
mod files;
mod laws;
mod loggable;
mod opening;
mod reading;

pub use commit_log::{CommitFault, CommitLog};
pub use files::{LoggedTable, open_file, open_log_file};
pub use laws::{a_log_is_never_refused, parts_are_one_history, what_is_acknowledged_is_there};
pub use loggable::{Loggable, MOST_LINES};
pub use opening::{OpenFault, OpenedLog, open_log};
