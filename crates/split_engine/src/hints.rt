//! What a split phase lets a worker guess of the next one.
use std::alloc::Global;

/// Of each key of a table, where its slice may stand. Any guess will do, since it is checked there:
/// so those of a phase serve the next one.
pub(crate) type Guesses = Vec<usize>;

/// What a worker's part of a split phase lets guess of its part of the next one. Any hints will do.
#[derive(Drop)]
pub(crate) struct Hints {
    pub(crate) guesses: Guesses,
    /// For how many commits there should be room.
    pub(crate) commits: usize,
    /// For how many slices there should be room.
    pub(crate) slices: usize,
}

impl Hints {
    /// Before the first split phase.
    pub(crate) fn none(alloc: Global) -> Hints {
        Hints {
            guesses: Vec::new(alloc),
            commits: 0,
            slices: 0,
        }
    }
}

/// Room for an eighth more than there was need for.
pub(crate) fn room_after(count: usize) -> usize {
    count.saturating_add(count / 8)
}
