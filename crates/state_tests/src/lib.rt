//! Tests of what a phase begins with and leaves: rows, records, shards, journals, and the floor that
//! `phase_floor` begins and closes.
#![tactic(auto)]

#[cfg(test)]
mod adding_tests;
#[cfg(test)]
mod begins;
#[cfg(test)]
mod begins_tests;
#[cfg(test)]
mod journal_tests;
#[cfg(test)]
mod merge_tests;
#[cfg(test)]
mod phases;
#[cfg(test)]
mod rule_tests;
#[cfg(test)]
mod shard_tests;
#[cfg(test)]
mod sixteen_tests;
#[cfg(test)]
mod split_tests;
#[cfg(test)]
mod testing;
