//! What a log opens.
ghost use Rattle.std.specs.List.{AllByRecursion};
ghost use Rattle.std.specs.Prelude.{◌≡◌, ◌+◌, ◌*◌, ◌<◌, ◌≤◌, ◌++◌, ◌∷◌, [], ℕ, List, Some, IfErr, IfOk, IfSome, OnOk, drop, length};
ghost use Rattle.part_log.specs.Files.{HoldsSoMany};
ghost use Rattle.split_engine.specs.Rules.{most_acts, most_before};
ghost use Rattle.application_log.specs.{Faults.{IsOpenFault}, Lines.{HasNoEnd, IsTail}};
ghost use Rattle.application_log.specs.Logs.{HasOpened, Opens, log_text};

use crate::loggable::{Loggable, MOST_LINES};
use crate::reading::{is_tail, read_whole_line, request_of};
use split_engine::{Application, MOST_KEYS, is_within, perform};
use std::alloc::{AllocError, Global};
use std::io;
use std::io::BufRead;
use thiserror::Error;

/// Why a log opens no table. Lines are counted from 1.
#[derive(Clone, Copy, Debug, Drop, Error)]
pub enum OpenFault {
    /// The line with this number is not the line of a request.
    #[error("line {0}: no request")]
    NoRequest(usize),
    /// The request of the line with this number names a key that the table does not have.
    #[error("line {0}: no such key")]
    NoSuchKey(usize),
    /// The last line, the one with this number, has no end and is not the beginning of one.
    #[error("line {0}: no line end, and not the beginning of a request")]
    Tail(usize),
    /// There are 2^28 lines, or 2^64 bytes.
    #[error("more than 268435455 lines")]
    TooLong,
    /// It could not be read.
    #[error("cannot be read: {0}")]
    Read(io::Error),
    /// No memory was left.
    #[error("no memory")]
    Memory,
}

impl From<AllocError> for OpenFault {
    ghost use Rattle.application_log.specs.declared.opening.OpenFault.TheVariants.{Memory};

    ghost from_gives = { λ _ fault. fault ≡ Memory };

    fn from(_refused: AllocError) -> OpenFault {
        OpenFault::Memory
    }
}

/// What a log opens.
#[derive(Drop)]
pub struct OpenedLog<A: Application> {
    /// The table after the requests of its lines.
    pub table: Vec<A::Record>,
    /// How many lines they are.
    pub lines: usize,
    /// How many bytes these lines have.
    pub kept: u64,
    /// The bytes behind them: the beginning of a line that was being written. It was never
    /// acknowledged, and is to be cut off before more is put by.
    pub tail: Vec<u8>,
}

impl<A: Loggable> OpenedLog<A> {
    // Performs the request of the next line.
    fn add_line(&mut self, line: &[u8], written: &mut Vec<u8>) -> Result<(), OpenFault>
        requires one { HasNoEnd line.now }
        requires few { self.old.lines < MOST_LINES }
        requires fits { (n : ℕ) × (n + MOST_KEYS ≤ most_acts)
            × AllByRecursion (A.fits n) self.old.table.items }
        ensures opened { OnOk result ((table : List A.Record) (before : List A.Request) →
            HasOpened A.rules A.line A.is_in_range table before
            self.old.table.items self.old.lines self.old.kept →
            (q : A.Request) × (A.line q ≡ Some line.now)
            × HasOpened A.rules A.line A.is_in_range table (before ++ q ∷ [])
            self.new.table.items self.new.lines self.new.kept) }
        ensures lines { OnOk result (self.new.lines ≡ self.old.lines + 1) }
        ensures fits { OnOk result ((n : ℕ) → AllByRecursion (A.fits n) self.old.table.items →
            AllByRecursion (A.fits (n + MOST_KEYS)) self.new.table.items) }
        ensures len { OnOk result (length self.new.table.items ≡ length self.old.table.items) }
        ensures fault { IfErr result (λ fault. (table : List A.Record) (before : List A.Request)
            (rest : List ℕ) → HasOpened A.rules A.line A.is_in_range table before
            self.old.table.items self.old.lines self.old.kept →
            IsOpenFault A.rules A.line A.is_in_range A.is_cut (length self.old.table.items) fault
            (log_text A.line before ++ (line.now ++ 10 ∷ rest))) }
    {
        let number = self.lines + 1;
        let found = request_of::<A>(line, written)?;
        let Some(request) = found else {
            return Err(OpenFault::NoRequest(number));
        };
        if !is_within::<A>(&request, self.table.len()) {
            return Err(OpenFault::NoSuchKey(number));
        }
        let size = line.len() as u64 + 1;
        let Some(kept) = self.kept.checked_add(size) else {
            return Err(OpenFault::TooLong);
        };
        perform::<A>(&mut self.table, &request);
        self.lines = number;
        self.kept = kept;
        Ok(())
    }
}

/// Performs the requests of a log's lines on the opening table. It holds one line at a time. Behind
/// them is the beginning of a line, or nothing: any other text is refused.
///
/// `fits`: each record of the opening table is one that fewer than 2^30 acts can make. Then a run
/// may go on from the table that is opened.
pub fn open_log<A: Loggable, R: BufRead>(
    alloc: Global,
    reader: &mut R,
    table: Vec<A::Record>,
) -> Result<OpenedLog<A>, OpenFault>
    requires fits { (n : ℕ) × (n < MOST_KEYS * MOST_LINES) × AllByRecursion (A.fits n) table.items }
    ensures opens { IfOk result (λ opened. IfSome (R.remaining reader.old)
        (Opens A.rules A.line A.is_in_range
        table.items opened.table.items opened.lines opened.kept)) }
    ensures tail { IfOk result (λ opened. IfSome (R.remaining reader.old) (λ bytes.
        opened.tail.items ≡ drop opened.kept bytes)) }
    ensures cut { IfOk result (λ opened. IsTail A.is_cut opened.tail.items) }
    ensures kept { IfOk result (λ opened. HoldsSoMany (R.remaining reader.old) opened.kept) }
    ensures few { IfOk result (λ opened. opened.lines < MOST_LINES) }
    ensures fits { (n : ℕ) → AllByRecursion (A.fits n) table.items → IfOk result (λ opened.
        AllByRecursion (A.fits (n + MOST_KEYS * opened.lines)) opened.table.items) }
    ensures goes_on { IfOk result (λ opened.
        (n : ℕ) × (n < most_before) × AllByRecursion (A.fits n) opened.table.items) }
    ensures len { IfOk result (λ opened. length opened.table.items ≡ length table.items) }
    ensures fault { IfErr result (λ fault. IfSome (R.remaining reader.old)
        (IsOpenFault A.rules A.line A.is_in_range A.is_cut (length table.items) fault)) }
{
    let mut opened = OpenedLog {
        table,
        lines: 0,
        kept: 0,
        tail: Vec::new(alloc),
    };
    let mut line = Vec::new(alloc);
    let mut written = Vec::new(alloc);
    for _number in 0..MOST_LINES {
        let is_whole = read_whole_line(reader, &mut line)?;
        if !is_whole {
            if !is_tail::<A>(&line) {
                return Err(OpenFault::Tail(opened.lines + 1));
            }
            opened.tail = line;
            return Ok(opened);
        }
        opened.add_line(&line, &mut written)?;
    }
    Err(OpenFault::TooLong)
}
