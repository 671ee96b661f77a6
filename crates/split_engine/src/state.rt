//! Where a run stands between two phases.
use crate::application::Application;
use crate::hints::Hints;
use crate::history::History;

/// How many requests the scripts of a run may have together.
pub const MOST_COMMITS: usize = 536_870_912;

/// What a run gives.
#[derive(Drop)]
pub struct Outcome<A: Application> {
    /// All commits, in the order in which they replay.
    pub history: History<A::Request, A::Reply>,
    /// The table after them.
    pub table: Vec<A::Record>,
}

/// How far a worker came in its script, and which requests before that are put off to the next
/// joined phase, each with its index.
#[derive(Drop)]
pub(crate) struct Cursor<Q> {
    pub(crate) next: usize,
    pub(crate) stash: Vec<(u32, Q)>,
}

/// What the phases so far leave, and each worker's cursor.
#[derive(Drop)]
pub(crate) struct RunState<A: Application> {
    pub(crate) so_far: Outcome<A>,
    pub(crate) cursors: Vec<Cursor<A::Request>>,
    /// What workers know of the last split phase, for the next one.
    pub(crate) hints: Vec<Hints>,
}
