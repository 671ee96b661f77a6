//! Replies while requests come: an input is performed part by part, and the rows of a part are
//! logged before one byte of its replies is written.
#![tactic(auto)]

mod error_place;
mod fault_lines;
mod limits;
mod parts;
mod session;
mod telling;

pub use error_place::{ErrorPlace, ErrorWriter};
pub use part_log::{Log, NoLog, Teller};
pub use session::{LoggedInput, parts_are_one_history, serve};
pub use telling::LiveTeller;
