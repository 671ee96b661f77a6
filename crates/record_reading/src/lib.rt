//! The records of an input, and what they ask for: rows, and a script for each worker.
//!
//! A record is read from the fields that `csv` gives (`record`), or in place if its line is plain
//! (`plain_lines`). `inputs` has what records ask for, and what is wrong with one.
#![tactic(auto)]

mod buffers;
mod fields;
mod inputs;
mod plain_fields;
mod plain_lines;
mod record;

pub use buffers::{ROOM_TO_READ, lines_end, read_more};
pub use fields::read_u64;
pub use inputs::{Cause, CompactInput, MOST_RECORDS, MOST_ROWS_OF_A_PART, ReadFault};
pub use plain_lines::{bid_at, line_at};
pub use record::{Record, front_of, read_next, read_record, worker_of};
