//! A log of commits: the lines of a part are put by with one call.
ghost use Rattle.std.specs.{Io.KnownBytes.{Appends, Keeps}, List.{AllByRecursion}};
ghost use Rattle.std.specs.Prelude.{◌≡◌, ◌+◌, ◌<◌, ◌++◌, false, IsErr, OnOk, IfOk, IfErr, length};
ghost use Rattle.application_log.specs.Faults.{HasNoRoom, IsEndedBy, IsFoundBy, IsOfLog};
ghost use Rattle.application_log.specs.Logs.{lines_of, log_text, requests_of};

use crate::loggable::{Loggable, MOST_LINES};
use part_log::{Log, LogFault};
use split_engine::{Entry, History};
use std::alloc::{AllocError, Global};
use thiserror::Error;

/// Why commits were not logged. None of them may be acknowledged then.
#[derive(Clone, Copy, Debug, Drop, Error)]
pub enum CommitFault {
    /// The log would have 2^28 lines, and nothing was put by.
    #[error("a log has fewer than 268435456 lines")]
    Full,
    /// No memory was left, and nothing was put by.
    #[error("no memory")]
    Memory,
    /// The lines were not put by.
    #[error("log {0}")]
    Log(LogFault),
}

impl From<AllocError> for CommitFault {
    ghost use Rattle.application_log.specs.declared.commit_log.CommitFault.TheVariants.{Memory};

    ghost from_gives = { λ _ fault. fault ≡ Memory };

    fn from(_refused: AllocError) -> CommitFault {
        CommitFault::Memory
    }
}

/// A log that has so many lines of requests, and the buffer in which the next are written.
#[derive(Drop)]
pub struct CommitLog<L> {
    /// Where lines are put by.
    pub log: L,
    /// How many lines it has.
    pub lines: usize,
    /// Kept from one call to the next, so that it grows only for a longer part.
    pub buffer: Vec<u8>,
}

// Appends the lines of commits, and tells how many they are.
fn write_piece<A: Loggable>(
    buffer: &mut Vec<u8>,
    commits: &[Entry<A::Request, A::Reply>],
) -> Result<usize, AllocError>
    ensures text { OnOk result (buffer.new.items
        ≡ buffer.old.items ++ log_text A.line (requests_of commits.now)) }
    ensures in_range { OnOk result (AllByRecursion A.is_in_range (requests_of commits.now)) }
    ensures count { IfOk result (λ lines.
        lines ≡ length (lines_of A.line (requests_of commits.now))) }
{
    let mut lines = 0;
    for place in 0..commits.len() {
        let request = commits[place].request;
        let is_logged = A::write_line(&request, buffer)?;
        if is_logged {
            buffer.push(b'\n')?;
            lines += 1;
        }
    }
    Ok(lines)
}

// Appends the lines of a history, and tells how many they are.
fn write_lines<A: Loggable>(
    buffer: &mut Vec<u8>,
    history: &History<A::Request, A::Reply>,
) -> Result<usize, AllocError>
    ensures text { OnOk result (buffer.new.items
        ≡ buffer.old.items ++ log_text A.line (requests_of history.now)) }
    ensures in_range { OnOk result (AllByRecursion A.is_in_range (requests_of history.now)) }
    ensures count { IfOk result (λ lines.
        lines ≡ length (lines_of A.line (requests_of history.now))) }
{
    let pieces = history.pieces();
    let mut lines = 0;
    for place in 0..pieces.len() {
        let added = write_piece::<A>(buffer, &pieces[place])?;
        lines += added;
    }
    Ok(lines)
}

impl<L: Log> CommitLog<L> {
    /// A log that has so many lines: those that `open_log` found, or none.
    pub fn new(alloc: Global, log: L, lines: usize) -> CommitLog<L>
        ensures log { result.log ≡ log }
        ensures lines { result.lines ≡ lines }
    {
        CommitLog {
            log,
            lines,
            buffer: Vec::new(alloc),
        }
    }

    /// Puts the lines of a history by, with one call of the log's `put`, or with none if no request
    /// of it has a line. After `Ok` its replies may be told.
    pub fn log_commits<A: Loggable>(
        &mut self,
        history: &History<A::Request, A::Reply>,
    ) -> Result<(), CommitFault>
        ensures logged { OnOk result (Appends (L.accepted self.old.log) (L.accepted self.new.log)
            (log_text A.line (requests_of history.now))) }
        ensures in_range { OnOk result (AllByRecursion A.is_in_range (requests_of history.now)) }
        ensures lines { OnOk result (self.new.lines
            ≡ self.old.lines + length (lines_of A.line (requests_of history.now))) }
        ensures few { OnOk result (self.new.lines < MOST_LINES) }
        ensures found { OnOk result (L.found self.old.log ≡ L.accepted self.old.log →
            L.found self.new.log ≡ L.accepted self.new.log) }
        ensures goes_on { OnOk result (L.has_ended self.new.log ≡ L.has_ended self.old.log) }

        ensures refused { IsErr result → Keeps (L.accepted self.old.log) (L.accepted self.new.log) }
        ensures same_lines { IsErr result → self.new.lines ≡ self.old.lines }
        ensures unasked { IfErr result (λ fault. (IsOfLog fault → ⊥) →
            self.new.log ≡ self.old.log) }
        ensures full { IfErr result (λ fault. HasNoRoom fault
            self.old.lines (length (lines_of A.line (requests_of history.now)))) }
        ensures taken_back { L.has_ended self.old.log ≡ false →
            L.found self.old.log ≡ L.accepted self.old.log → IfErr result (λ fault.
            IsFoundBy fault (L.accepted self.new.log) (L.found self.new.log)
            (log_text A.line (requests_of history.now))) }
        ensures ended { IfErr result (λ fault.
            IsEndedBy fault (L.has_ended self.old.log) (L.has_ended self.new.log)) }
    {
        self.buffer.clear();
        let added = write_lines::<A>(&mut self.buffer, history)?;
        if added >= MOST_LINES.saturating_sub(self.lines) {
            return Err(CommitFault::Full);
        }
        if added > 0 {
            if let Err(fault) = self.log.put(&self.buffer) {
                return Err(CommitFault::Log(fault));
            }
        }
        self.lines += added;
        Ok(())
    }
}
