//! The shards of an auction: the shared copies of the records of its objects, what transactions do
//! there, and what views show. Also the auction of one thread, which is one shard that has every
//! object, and the books that an auction is opened with.
#![tactic(auto)]

mod laws;
mod openings;
mod serial;
mod shard;

pub use auction_rows::Opened;
pub use laws::{
    acts_can_be_done, acts_of_entries, acts_of_rows, counts_of_books, limits_of_books,
    opening_books, values_of_books, views_are_replies,
};
pub use openings::{OpeningBook, ResumeFault};
pub use serial::{SerialAuction, StoreCounts};
pub use shard::acts::{Act, Look, writes_of};
pub use shard::items::refusal_with;
pub use shard::slices::{CategorySlice, ItemSlice, Slice, UserSlice};
pub use shard::{LAST_NUMBER, Shard, next_number};
