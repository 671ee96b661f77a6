//! What a split permit did with a request.
use auction_rows::Reply;

/// What a split permit did with a request.
#[derive(Clone, Copy, Debug, PartialEq, Eq)]
pub enum Done {
    /// It was committed with this reply.
    Committed(Reply),
    /// It waits for the next joined phase.
    Stashed,
}
