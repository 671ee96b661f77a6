//! Whole inputs: the rows and scripts that are read to the end of what a reader gives.
//!
//! `scripts` reads plain lines where they lie, and by `csv` from the first line on that is not
//! plain or has a fault. `buffered_lines` takes plain lines as they come: by the thread that calls
//! (`plain_text`), or by several (`by_threads`). What is read at a time is then cut at ends of
//! lines into parcels, each is read as if nothing stood before it, and they are joined in their
//! order, the requests of each worker by one thread.
#![tactic(auto)]

mod buffered_lines;
mod by_threads;
mod joins;
mod laws;
mod parcel_joins;
mod parcels;
mod plain_text;
mod scripts;

pub use by_threads::read_scripts_by_threads;
pub use laws::rows_come_first;
pub use scripts::{Input, read_compact_scripts, read_scripts};
