//! Tests of `part_log`, over files in memory that fail, and of `log_opening`.
mod log_tests;
mod mem_file;
mod opening_tests;
