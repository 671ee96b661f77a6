//! Tests of `split_engine` and its referee, by an application with counters.
#![tactic(auto)]

#[cfg(test)]
mod calls;
mod counters;
#[cfg(test)]
mod referee_tests;
#[cfg(test)]
mod run_tests;

pub use counters::{CounterReply, CounterRequest, Counters};
