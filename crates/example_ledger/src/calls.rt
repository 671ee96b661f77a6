//! Calls that take memory, each with its answer printed. `tests/library_calls.py` runs these tests
//! by name, with each allocation refused in turn.
mod tests;
