//! Calls that take memory, each with its answer printed: the first requests of a permit, and phases
//! by hand. `tests/library_calls.py` runs these tests by name, with each allocation refused in
//! turn.
mod first_requests;
mod phases;
mod printing;
mod tests;
