//! All shards of one auction: each object lies in one of them. Views are answered there, rows are
//! written on them, and slices are merged into them.
#![tactic(auto)]

mod merging;
mod shards;
mod writing;

pub use shards::Shards;
