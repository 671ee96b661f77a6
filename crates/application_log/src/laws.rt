//! Why what is acknowledged is there after a restart.
ghost use Rattle.std.specs.{Io.KnownBytes.{Appends}, List.{AllByRecursion}};
ghost use Rattle.std.specs.Prelude.{◌≡◌, ◌++◌, ◌<◌, ◌^◌, ℕ, List, Option, take, length};
ghost use Rattle.split_engine.specs.Serial.{IsWithin, table_after};
ghost use Rattle.split_engine.specs.declared.entry.Entry.{Entry as Commit};
ghost use Rattle.application_log.specs.Faults.{IsForMemory, IsOpenFault};
ghost use Rattle.application_log.specs.Logs.{lines_of, log_text, requests_of, Opens};
ghost use Rattle.application_log.specs.declared.loggable.TheConstants.{MOST_LINES};
ghost use Rattle.application_log.specs.declared.opening.OpenFault.{OpenFault};

use crate::loggable::Loggable;

/// What was acknowledged is there after a restart. If a log's bytes are the lines of a history, as
/// `log_commits` puts them by part by part, then what `open_log` opens of them is the table after
/// the history: the one that its last run left.
///
/// A crash may leave lines of a part that was not acknowledged behind them, and a cut one. Then it
/// is the table after the history and the first requests of that part.
pub fn what_is_acknowledged_is_there<A: Loggable>()
    ensures acknowledged { (opened left : List A.Record) (lines kept : ℕ) (bytes : List ℕ)
        (history : List (Commit A.Request A.Reply)) →
        AllByRecursion A.is_in_range (requests_of history) →
        bytes ≡ log_text A.line (requests_of history) →
        Opens A.rules A.line A.is_in_range opened left lines kept bytes →
        (left ≡ table_after A.rules opened history)
        × (lines ≡ length (lines_of A.line (requests_of history))) × (kept ≡ length bytes) }
    ensures crashed { (opened left : List A.Record) (lines kept n : ℕ) (bytes : List ℕ)
        (history part : List (Commit A.Request A.Reply)) →
        AllByRecursion A.is_in_range (requests_of (history ++ part)) →
        bytes ≡ log_text A.line (requests_of history)
        ++ take n (log_text A.line (requests_of part)) →
        Opens A.rules A.line A.is_in_range opened left lines kept bytes →
        (k : ℕ) × (left ≡ table_after A.rules opened (history ++ take k part)) }
{}

/// Parts that are put by one after the other are one history in the log.
pub fn parts_are_one_history<A: Loggable>()
    ensures { (before between after : Option (List ℕ))
        (first second : List (Commit A.Request A.Reply)) →
        Appends before between (log_text A.line (requests_of first)) →
        Appends between after (log_text A.line (requests_of second)) →
        Appends before after (log_text A.line (requests_of (first ++ second))) }
{}

/// What a crash leaves of a log is never refused: `open_log` fails only for want of memory, or if a
/// read fails.
pub fn a_log_is_never_refused<A: Loggable>()
    ensures { (size n : ℕ) (bytes : List ℕ) (history part : List (Commit A.Request A.Reply))
        (fault : OpenFault) → AllByRecursion A.is_in_range (requests_of (history ++ part)) →
        AllByRecursion (IsWithin A.rules size) (requests_of (history ++ part)) →
        length (lines_of A.line (requests_of (history ++ part))) < MOST_LINES →
        length bytes < 2 ^ 64 →
        bytes ≡ log_text A.line (requests_of history)
        ++ take n (log_text A.line (requests_of part)) →
        IsOpenFault A.rules A.line A.is_in_range A.is_cut size fault bytes → IsForMemory fault }
{}
