//! The referee: judges a history of an application on one thread.
ghost use Rattle.std.specs.{Bool.{OnTrue}, List.{AllByRecursion}};
ghost use Rattle.std.specs.Prelude.{◌≡◌, ◌↔◌, ℕ, Some, None, MatchOption, ◌+◌, ◌*◌, ◌<◌, ◌≤◌, ◌++◌, ◌∷◌, [], List, length, IfOk, IfErr, IsTrue};
ghost use Rattle.split_engine.specs.{Rules.{most_acts}, Serial.{IsWithin}, Serving.{lists, request_at}};
ghost use Rattle.application_check.specs.Checking.{IsRightLine, after_line, after_lines, IsHistory, IsHistoryFault};
ghost use Rattle.application_check.specs.inner.Marking.{AreMarks};
ghost use Rattle.application_check.specs.declared.referee.HistoryLine.{HistoryLine as LineValue};

use crate::marks::{mark, new_marks, unmarked};
use split_engine::{Application, MOST_KEYS, perform};
use std::alloc::{AllocError, Global};
use thiserror::Error;

/// A line of a history: the request with this index of a worker's script was answered so.
#[derive(Clone, Copy)]
pub struct HistoryLine<R> {
    /// Whose script the request is of.
    pub worker: u32,
    /// Its place in the script, from 0.
    pub index: u32,
    /// What it was answered.
    pub reply: R,
}

/// An application whose replies can be compared.
pub trait Checkable: Application {
    /// Whether two replies are the same.
    fn is_same_reply(told: &Self::Reply, given: &Self::Reply) -> bool
        ensures { IsTrue result ↔ (told.now ≡ given.now) };
}

/// Why lines are no history.
#[derive(Clone, Copy, Debug, PartialEq, Eq, Drop, Error)]
pub enum HistoryFault {
    /// The line at this place is the first wrong one: no script has its request, a line before it
    /// has it too, or its reply is not the one that the table gives.
    #[error("line {0} is wrong")]
    Wrong(usize),
    /// Each line is right, but none has this request of a worker.
    #[error("worker {worker}, request {index}: no line")]
    Lacking { worker: usize, index: usize },
    /// No memory was left.
    #[error("no memory")]
    Memory,
}

impl From<AllocError> for HistoryFault {
    ghost use Rattle.application_check.specs.declared.referee.HistoryFault.TheVariants.{Memory};

    ghost from_gives = { λ _ fault. fault ≡ Memory };

    fn from(_refused: AllocError) -> HistoryFault {
        HistoryFault::Memory
    }
}

// The request that a line names.
fn asked<'a, Q: Copy, R>(scripts: &'a [Vec<Q>], line: &HistoryLine<R>) -> Option<&'a Q>
    ensures { MatchOption result
        (request_at (lists scripts.now) line.now.worker line.now.index ≡ None)
        (λ request.
        request_at (lists scripts.now) line.now.worker line.now.index ≡ Some request.now) }
{
    scripts.get(line.worker as usize)?.get(line.index as usize)
}

// Judges a line after others, which have these marks: its request is then marked, and the table is
// the one after it.
fn check_line<A: Checkable>(
    table: &mut Vec<A::Record>,
    marks: &mut Vec<Vec<bool>>,
    scripts: &[Vec<A::Request>],
    line: &HistoryLine<A::Reply>,
) -> bool
    requires scripts { AllByRecursion (AllByRecursion (IsWithin A.rules (length table.old.items)))
        (lists scripts.now) }
    requires marks { (before : List (LineValue A.Reply))
        × AreMarks (lists scripts.now) before (lists marks.old.items) }
    requires fits { (n : ℕ) × (n + MOST_KEYS ≤ most_acts)
        × AllByRecursion (A.fits n) table.old.items }
    ensures right { (before : List (LineValue A.Reply)) →
        AreMarks (lists scripts.now) before (lists marks.old.items) →
        (IsTrue result ↔ IsRightLine A.rules (lists scripts.now) before table.old.items line.now) }
    ensures marks { OnTrue result ((before : List (LineValue A.Reply)) →
        AreMarks (lists scripts.now) before (lists marks.old.items) →
        AreMarks (lists scripts.now) (before ++ line.now ∷ []) (lists marks.new.items)) }
    ensures table { OnTrue result
        (table.new.items ≡ after_line A.rules (lists scripts.now) table.old.items line.now) }
    ensures size { length table.new.items ≡ length table.old.items }
    ensures fits { (n : ℕ) → AllByRecursion (A.fits n) table.old.items →
        AllByRecursion (A.fits (n + MOST_KEYS)) table.new.items }
{
    let Some(request) = asked(scripts, line) else {
        return false;
    };
    if mark(marks, line.worker as usize, line.index as usize) {
        return false;
    }
    let reply = perform::<A>(table, request);
    A::is_same_reply(&line.reply, &reply)
}

/// Judges a history that is given as lines. They are one if they replay from this table, which is
/// then the one after them, and if each request of each script has just one line. After an error
/// no clause says what the table holds.
///
/// `check_scripts` is a test of `scripts`.
pub fn check_history<A: Checkable>(
    alloc: Global,
    table: &mut Vec<A::Record>,
    scripts: &[Vec<A::Request>],
    lines: &[HistoryLine<A::Reply>],
) -> Result<(), HistoryFault>
    requires scripts { AllByRecursion (AllByRecursion (IsWithin A.rules (length table.old.items)))
        (lists scripts.now) }
    requires fits { (n : ℕ) × (n + MOST_KEYS * length lines.now < most_acts)
        × AllByRecursion (A.fits n) table.old.items }
    ensures history { IfOk result (λ _.
        IsHistory A.rules (lists scripts.now) table.old.items lines.now) }
    ensures table { IfOk result (λ _.
        table.new.items ≡ after_lines A.rules (lists scripts.now) table.old.items lines.now) }
    ensures fault { IfErr result
        (IsHistoryFault A.rules (lists scripts.now) table.old.items lines.now) }
{
    let mut marks = new_marks(alloc, scripts)?;
    for (place, line) in lines.iter().enumerate() {
        if !check_line::<A>(table, &mut marks, scripts, line) {
            return Err(HistoryFault::Wrong(place));
        }
    }
    match unmarked(&marks) {
        Some((worker, index)) => Err(HistoryFault::Lacking { worker, index }),
        None => Ok(()),
    }
}
