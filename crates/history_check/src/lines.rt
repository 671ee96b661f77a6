//! The id of a commit, which a line of a history begins with, the text after it, and what is
//! found of the lines.
ghost use Rattle.std.specs.List.{position};
ghost use Rattle.std.specs.Prelude.{◌≡◌, ◌++◌, ◌∷◌, [], ◌<◌, ◌^◌, ℕ, List, decimal, length, IfSome, IfNone, IsSomeAnd};
ghost use Rattle.history_check.specs.CommitIds.{with_commit_id, Fits, IsLineOf};
ghost use Rattle.history_check.specs.inner.Reading.{is_space};
ghost use Rattle.history_check.specs.declared.lines.CommitId.{CommitId as CommitIdValue};

use auction_rows::Reply;
use auction_text::read_u64;
use std::alloc::{AllocError, AllocFailed};
use std::io;
use thiserror::Error;

/// What names a commit: its phase and number, its worker and the index of its request.
#[derive(Clone, Copy)]
pub struct CommitId {
    pub phase: u64,
    pub number: u64,
    pub worker: u32,
    pub index: u32,
}

// The place of the first space.
fn first_space(bytes: &[u8]) -> Option<usize>
    ensures place { result ≡ position is_space bytes.now }
    ensures within { IfSome result (λ i. i < length bytes.now) }
{
    bytes.iter().position(|byte| *byte == b' ')
}

// The number before the first space, and what is after it.
fn read_number(bytes: &[u8]) -> Option<(u64, &[u8])>
    ensures read { IfSome result (λ found. bytes.now ≡ decimal found.0 ++ 32 ∷ found.1.now) }
    ensures all { (n : ℕ) (rest : List ℕ) → n < 2 ^ 64 → bytes.now ≡ decimal n ++ 32 ∷ rest →
        IsSomeAnd result (λ found. (found.0 ≡ n) × (found.1.now ≡ rest)) }
{
    let space = first_space(bytes)?;
    let number = read_u64(&bytes[..space])?;
    Some((number, &bytes[space + 1..]))
}

// The same, of a number below 2^32.
fn read_short_number(bytes: &[u8]) -> Option<(u32, &[u8])>
    ensures read { IfSome result (λ found. bytes.now ≡ decimal found.0 ++ 32 ∷ found.1.now) }
    ensures all { (n : ℕ) (rest : List ℕ) → n < 2 ^ 32 → bytes.now ≡ decimal n ++ 32 ∷ rest →
        IsSomeAnd result (λ found. (found.0 ≡ n) × (found.1.now ≡ rest)) }
{
    let (number, rest) = read_number(bytes)?;
    if number > u64::from(u32::MAX) {
        return None;
    }
    Some((number as u32, rest))
}

// The id of the commit that a text begins with, and what is after the space that follows it.
fn read_commit_id(text: &[u8]) -> Option<(CommitId, &[u8])>
    ensures read { IfSome result (λ found. text.now ≡ with_commit_id found.0 found.1.now) }
    ensures fits { IfSome result (λ found. Fits found.0) }
    ensures all { (commit_id : CommitIdValue) (rest : List ℕ) → Fits commit_id →
        text.now ≡ with_commit_id commit_id rest →
        IsSomeAnd result (λ found. (found.0 ≡ commit_id) × (found.1.now ≡ rest)) }
{
    let (phase, text) = read_number(text)?;
    let (number, text) = read_number(text)?;
    let (worker, text) = read_short_number(text)?;
    let (index, rest) = read_short_number(text)?;
    let commit_id = CommitId {
        phase,
        number,
        worker,
        index,
    };
    Some((commit_id, rest))
}

// A line without the line feed at its end.
fn without_line_feed(line: &[u8]) -> Option<&[u8]>
    ensures read { IfSome result (λ text. line.now ≡ text.now ++ 10 ∷ []) }
    ensures all { (text : List ℕ) → line.now ≡ text ++ 10 ∷ [] →
        IsSomeAnd result (λ found. found.now ≡ text) }
{
    match line {
        [text @ .., b'\n'] => Some(text),
        _ => None,
    }
}

/// The id of the commit that a line begins with, and the text of the reply after it, if there is a
/// line feed at its end.
pub fn read_line(line: &[u8]) -> Option<(CommitId, &[u8])>
    ensures read { IfSome result (λ found. IsLineOf line.now found.0 found.1.now) }
    ensures none { IfNone result ((commit_id : CommitIdValue) (text : List ℕ) →
        ¬ IsLineOf line.now commit_id text) }
{
    let (commit_id, rest) = read_commit_id(line)?;
    let text = without_line_feed(rest)?;
    Some((commit_id, text))
}

/// The order in which the entries of each worker are to stand.
#[derive(Clone, Copy)]
pub enum Order {
    /// In any.
    Any,
    /// A splittable store stands after no later request of its script.
    StoresFirst,
    /// No request stands after a later one of its script.
    Strict,
}

/// Why a line is wrong after the lines before it.
#[derive(Clone, Copy)]
pub enum Wrong {
    /// It doesn't begin with four numbers that have a space after each, or has no line feed at its
    /// end.
    Unreadable,
    /// No script has its request.
    NoRequest,
    /// Its request stands in an earlier line.
    Again,
    /// A later request of its script stands in an earlier line, against the order that is asked
    /// for.
    Late,
    /// This reply was due, and not the line's.
    Due(Reply),
}

/// What is found of the text of a history.
#[derive(Clone, Copy)]
pub enum Verdict {
    /// It replays, and each request of each script stands in one line.
    Replays,
    /// The line with this number, from 1, is the first that is wrong.
    WrongAt(usize, Wrong),
    /// No line is wrong, and the request with this index of this worker's script stands in none.
    Lacks(usize, usize),
}

/// Why nothing is found.
#[derive(Clone, Copy, Debug, Drop, Error)]
pub enum CheckFault {
    /// The rows and the lines are more than `MOST_ROWS`.
    #[error("more than 16000000 rows and lines")]
    TooLong,
    /// A read of the history failed.
    #[error("history cannot be read: {0}")]
    Read(io::Error),
    /// No memory was left.
    #[error("no memory")]
    Memory,
}

impl From<AllocError> for CheckFault {
    ghost use Rattle.history_check.specs.declared.lines.CheckFault.TheVariants.{Memory};

    ghost from_gives = { λ _ fault. fault ≡ Memory };

    fn from(_refused: AllocError) -> CheckFault {
        CheckFault::Memory
    }
}

impl<T: Drop> From<AllocFailed<T>> for CheckFault {
    ghost use Rattle.history_check.specs.declared.lines.CheckFault.TheVariants.{Memory};

    ghost from_gives = { λ _ fault. fault ≡ Memory };

    fn from(_refused: AllocFailed<T>) -> CheckFault {
        CheckFault::Memory
    }
}
