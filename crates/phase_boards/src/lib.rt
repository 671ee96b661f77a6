//! Boards, which are given the rows of each phase of a run; and how these rows are made.
#![tactic(auto)]

mod board;
mod rows;

pub use board::{Board, NoBoard};
pub use rows::{last_rows, rows_of};
