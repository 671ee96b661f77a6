//! Tests of `phase_permits`: permits made by hand, with boxes, journals, stashes and slices.
pub(crate) mod closing;
pub(crate) mod joined;
mod joined_tests;
mod split;
mod split_tests;
mod thread_tests;
