//! What the bytes of a log say: which of them are rows, which are the beginning of a row that was
//! being written, and which are neither.
#![tactic(auto)]

mod adding;
mod files;
mod laws;
mod lines;
mod opening;
mod parts;
mod row_texts;
mod tails;

pub use adding::{Refused, add_rows};
pub use files::{cut_log, read_log};
pub use laws::{
    a_log_has_its_book, a_prefix_is_never_refused, a_prefix_opens, a_prefix_opens_its_rows,
    a_tail_is_a_cut_row, rows_are_read_back,
};
pub use opening::{LoggedAuction, OpenFault, open_parts};
pub use tails::{LONGEST_ROW, is_cut_row};
