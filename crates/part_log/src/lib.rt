//! A log of lines: the rows that a run adds, or the requests that it commits. Those of a part are
//! put by for good before one byte of the part's replies is written.
#![tactic(auto)]

mod file_log;
mod log;
mod named_file;

pub use file_log::{AppendFile, FileLog};
pub use log::{Log, LogFault, NoLog, TellFault, Teller, tell_part};
pub use named_file::NamedFile;
