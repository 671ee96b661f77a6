//! The workers of a phase: each spends a permit on its part of a script, side by side on threads or
//! one after the other.
#![tactic(auto)]

mod meeting;
mod round;
mod worker;

pub use round::{Round, serve_all};
pub use worker::{FreeGate, Gate};
