//! Tests of the engine by its public calls: of runs in threads (`auction_run`), of windows
//! (`auction_window`), and calls for which memory is refused.
#![tactic(auto)]

#[cfg(test)]
mod board_tests;
#[cfg(test)]
mod calls;
#[cfg(test)]
mod entry_tests;
#[cfg(test)]
mod gate_tests;
#[cfg(test)]
mod going_on_tests;
#[cfg(test)]
mod meeting_tests;
#[cfg(test)]
mod one_shard_tests;
#[cfg(test)]
mod part_tests;
#[cfg(test)]
mod quota_tests;
#[cfg(test)]
mod refusal_tests;
#[cfg(test)]
mod replay_tests;
#[cfg(test)]
mod testing;
#[cfg(test)]
mod view_tests;
