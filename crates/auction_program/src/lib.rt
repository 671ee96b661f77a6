//! The program behind `main`: from its words and the bytes of rows and scripts to the bytes that it
//! writes.
#![tactic(auto)]

mod asked;
mod execution;
mod texts;

pub use byte_texts::UntilEnd;
pub use execution::{execute, one_worker_has_one_answer};
pub use program_opening::{
    AddFault, Cause, Fault, FileLog, Joined, LogCause, LogFault, LogFileFault, MakeFault,
    NamedFile, OpenFault, OpenedLog, Options, ReadFault, ResumeFault, RunFault, UsageFault,
    WriteFault, new_auction, open_log, read_options, status, write_fault,
};
pub use program_serving::{
    ErrorPlace, ErrorWriter, LiveTeller, Log, LoggedInput, NoLog, Teller, parts_are_one_history,
    serve,
};
