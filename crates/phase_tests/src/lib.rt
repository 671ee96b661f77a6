//! Tests of boxes, permits and workers, and of whole phases, by their public calls.
#![tactic(auto)]

#[cfg(test)]
mod box_tests;
#[cfg(test)]
mod calls;
#[cfg(test)]
mod permits;
#[cfg(test)]
mod testing;
#[cfg(test)]
mod worker_tests;
