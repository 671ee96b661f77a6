//! What a request decides, and what is committed.

use crate::few::Few;

/// What a request is answered, and what it does to its records.
#[derive(Drop)]
pub struct Decision<R, A> {
    /// What it is answered.
    pub reply: R,
    /// What it does to the record at each of its keys, in their order: nothing at those for which
    /// there is no act. An act for which there is no key is not done.
    pub acts: Few<A>,
}

/// A commit: the request with this index of a worker's script, and its reply.
#[derive(Clone, Copy)]
pub struct Entry<Q, R> {
    /// Whose script the request is of.
    pub worker: u32,
    /// Its place in the script, from 0.
    pub index: u32,
    /// The request.
    pub request: Q,
    /// What it was answered.
    pub reply: R,
}
