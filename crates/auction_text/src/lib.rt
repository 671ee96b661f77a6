//! The texts of an auction that are written: replies, histories, rows and reports. What reads rows
//! and scripts is in crates below, and is exported too.
#![tactic(auto)]

mod laws;
mod writing;

pub use auction_reading::{
    Input, read_compact_scripts, read_scripts, read_scripts_by_threads, rows_come_first,
};
pub use byte_texts::WriteFault;
pub use laws::{moved_in_order, replies_in_order, rows_of_histories};
pub use live_reading::{LineFault, LiveEnd, LiveInput, LivePart, Said};
pub use record_reading::{
    Cause, CompactInput, MOST_RECORDS, MOST_ROWS_OF_A_PART, ReadFault, read_u64,
};
pub use writing::Before;
pub use writing::output::{
    write_history, write_history_on, write_replies, write_replies_by, write_replies_by_threads,
    write_replies_on, write_report, write_rows,
};
pub use writing::replies::{ReplyText, TextBlock, push_reply};
pub use writing::report::ReportLines;
pub use writing::rows::push_quoted;
