//! Boxes that hold the shards of one phase, and the keys by which its workers take them, without
//! locks.
//!
//! A box is a queue for one shard. What happened to the shard is no data: the rule of the queue
//! says it, and contracts see of each key which lines its worker has put and which list of lines it
//! has seen.
#![tactic(auto)]

mod boxes;
mod grants;
mod held;
mod key;
mod limits;
mod line;
mod shard_box;
mod spare;

pub use boxes::{Boxes, PhaseName};
pub use held::Held;
pub use key::Key;
pub use limits::{MOST_COMMITS, MOST_KEPT, sums_fit};
pub use line::{ItemBid, Line, Numbered};
pub use spare::Spare;
