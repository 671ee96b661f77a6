//! Inputs that go on while their requests are served, read part by part and line by line.
//!
//! Each line is a text of its own, and one with a fault ends a part, but not the input.
#![tactic(auto)]

mod line_buffer;
mod line_skipping;
mod line_taking;
mod live_lines;
mod live_parts;
mod part_records;

pub use live_lines::{LineFault, Said};
pub use live_parts::{LiveEnd, LiveInput, LivePart};
