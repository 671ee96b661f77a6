//! Phases: how one begins from the state between two phases (`Joined`), and how it closes; a floor
//! is a phase that is open. That state is resumed from an opening book, and answers views.
#![tactic(auto)]

mod adding;
mod begins;
mod close;
mod floor;
mod joined;
mod memory;
mod resumption;
mod start;

pub use adding::AddFault;
pub use floor::{BeginFault, Floor, FloorFault, JoinedFloor, SplitFloor};
pub use joined::Joined;
