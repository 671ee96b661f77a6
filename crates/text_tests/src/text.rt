//! Tests of texts: the scripts of an input, numbers of parts that are too great, and writers that
//! fail. What an input says line by line, and what is written of a run and of its parts, stand in
//! tests/live.py, tests/limits.py and tests/worked.
mod part_tests;
mod script_tests;
mod writing_tests;
