//! The list of the parts that a publisher hands to its windows, for parts of any kind: its length,
//! by which the publisher alone adds parts, and its prefixes, which windows know. Of two prefixes
//! one begins with the other, so whoever compares their lengths never goes back. And the two copies
//! of a value by which windows read what a publisher changes.
#![tactic(auto)]

mod copies;
mod parts;

pub use copies::{CopyReader, CopyWriter, MakeFault, NoGuard};
pub use parts::{ListName, PartCount, PartList, Prefix};
