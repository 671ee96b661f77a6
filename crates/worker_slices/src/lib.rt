//! What a worker alone touches in a phase: its slices of hot objects, the requests that it
//! put off, and its counters; and where it finds the objects of a request.
#![tactic(auto)]

mod counters;
mod guesses;
mod homes;
mod slices;
mod stash;

pub use counters::Counters;
pub use homes::{Home, Homes};
pub use slices::{Hot, Slices};
pub use stash::Stash;
