//! Tests of the program's library by its public calls.
#![tactic(auto)]

#[cfg(test)]
mod failing_tests;
#[cfg(test)]
mod limit_tests;
#[cfg(test)]
mod running_tests;
#[cfg(test)]
mod testing;
