//! How the program begins: its options, the auction that it opens, with the rows of a log if there
//! is one, and the faults with which it can end.
#![tactic(auto)]

mod faults;
mod opened_log;
mod opening;
mod options;

pub use auction_text::{Cause, ReadFault};
pub use auction_window::MakeFault;
pub use byte_texts::WriteFault;
pub use faults::{Fault, status, write_fault};
pub use item_shards::ResumeFault;
pub use log_file::{LogCause, LogFileFault};
pub use log_opening::OpenFault;
pub use opened_log::{OpenedLog, open_log};
pub use opening::new_auction;
pub use options::{Options, read_options};
pub use part_log::{FileLog, LogFault, NamedFile};
pub use phase_floor::{AddFault, Joined};
pub use program_options::UsageFault;
pub use run_phases::RunFault;
