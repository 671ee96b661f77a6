//! Tests of texts and of the log by their public calls.
#![tactic(auto)]

#[cfg(test)]
mod logs;
#[cfg(test)]
mod testing;
#[cfg(test)]
mod text;
