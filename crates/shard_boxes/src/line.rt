//! What one transaction did on one shard, and where it stands among the commits.
use auction_rows::{BidEntry, ItemId};
use item_shards::{Act, Shard};
use std::marker::{Brand, Model};

/// The number of a commit, and the index of its request in its worker's script.
#[derive(Clone, Copy)]
pub struct Numbered {
    /// The number of the commit.
    pub number: u64,
    /// The index of the request in its worker's script.
    pub index: u32,
}

/// A bid and the item that it is on.
#[derive(Clone, Copy)]
pub struct ItemBid {
    /// The item that it is on.
    pub item: ItemId,
    /// The bid, with its id.
    pub entry: BidEntry,
}

/// What one transaction did on one shard. Contracts see it as `seen_line`: with what its looks
/// showed of the shard as it was taken.
#[derive(Drop)]
pub struct Line {
    /// The number of the commit.
    pub number: u64,
    /// The shard's clock as it was found.
    pub before: u64,
    /// The index of the request in its worker's script.
    pub index: u32,
    /// What was done, in order: a look at nothing for a missing act.
    pub acts: [Act; 2],
}

/// A line as passes know it. No value of it is made.
pub struct KnownLine {
    pub number: u64,
    pub index: u32,
    pub found: Shard,
    pub acts: [Act; 2],
}

impl Model for KnownLine {
    ghost use Rattle.shard_boxes.specs.Lines.{Line, line_of};

    ghost Value = { Line };

    ghost view = { λ t. line_of t.number t.index t.acts t.found };
}

/// Names the line with which a shard is put back. A call passes `Brand`, and its proof picks the
/// line from the call's arguments, so each way to put one back has a function of its own.
pub(crate) trait LineName {
    ghost use Rattle.std.specs.Prelude.{Option};
    ghost use Rattle.shard_boxes.specs.Lines.{Line};

    ghost line: { Option Line };
}

impl LineName for Brand {
    ghost use Rattle.std.specs.Prelude.{None};

    ghost line = { None };
}
