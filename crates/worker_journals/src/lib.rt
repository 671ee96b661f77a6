//! The journals of workers: what each worker commits in one phase, in few bytes per entry. And the
//! history, which keeps the journals of all phases and merges them by number while it is read.
#![tactic(auto)]

mod asked;
mod entries;
mod head_list;
mod heads;
mod history;
mod journal;
mod lately;
mod merge;
mod sides;

pub use auction_rows::Entry;
pub use entries::{Answer, EntryRef, ReplyForm};
pub use history::{Entries, History, WorkerEntries};
pub use journal::{Journal, JournalEntries, SpareLists};
pub use merge::{entries_by_worker, journals_merge, merge_journals, numbers_come_after};
pub use request_scripts::{BidRequest, Script, SharedScripts};
