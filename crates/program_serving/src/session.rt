//! Replies while requests come: the input is performed part by part; and what holds of an input
//! that is served so.
ghost use Rattle.std.specs.Prelude.{ℕ, ◌≡◌, ◌++◌, ◌≤◌, List, [], Option, Some, false, true, IfErr, IfOk, IfSome, MatchOption, OnOk};
ghost use Rattle.auction_rows.specs.{Book.{Book}, History.{ReplaysFrom}};
ghost use Rattle.auction_text.specs.{LiveLines.{live_says}, Moved.{Gone, gone_by}};
ghost use Rattle.auction_text.specs.Replies.{history_text};
ghost use Rattle.auction_text.specs.Said.{Said as Says};
ghost use Rattle.part_log.specs.declared.log.Teller.{Teller as Told};
ghost use Rattle.phase_floor.specs.Adding.{HasBook};
ghost use Rattle.program_opening.specs.Options.{opening_asked};
ghost use Rattle.program_opening.specs.declared.options.Options.{Options as Asked};
ghost use Rattle.program_serving.specs.{ErrorFaults.{AddsTold, unanswered}, PartRuns.{IsStart}};
ghost use Rattle.program_serving.specs.ServeFaults.{AreToldAt, IsServeFault, IsStop};
ghost use Rattle.program_serving.specs.Serving.{AreStepRuns, HasServedBook, IsLoggedBefore, IsServed, LogHasBook, RowsComeFirst, ServesAll, Step, added_rows, ends_at_fault, served_history, served_text, told_by};
ghost use Rattle.program_serving.specs.inner.Sessions.{GoesOnTo, HasTold, IsServedSoFar, MayGoOnTo, MayHaveToSay, PassesFault, past_answer};

use crate::error_place::ErrorPlace;
use crate::fault_lines::{Turned, TurnedLine};
use crate::limits::{ends_at_fault, most_of_a_part};
use crate::parts::{NextPart, Served, ServedPart, serve_part};
use crate::telling::{LiveTeller, tell_turned};
use auction_text::{Before, LiveEnd, LiveInput, LivePart, ReadFault};
use part_log::Log;
use phase_floor::Joined;
use program_opening::{Fault, Options};
use std::alloc::Global;
use std::io::{Read, Write};
use std::sync::Wait;
use std::thread::Threads;

/// What is served: an auction with the rows of a log, and then an input.
#[derive(Drop)]
pub struct LoggedInput<I> {
    /// The auction.
    pub auction: Joined,
    /// The reader of the input.
    pub reader: I,
}

// An input that is served so far, and how it goes on.
#[derive(Drop)]
struct Session<I> {
    served: Served,
    end: LiveEnd<I>,
}

/// Serves an input part by part: the rows of a part are added to the auction, its scripts are
/// performed, all rows that this adds are logged, and then what is asked for is written and
/// flushed, before more is read. A line with a fault, or a request past its worker's limit, ends
/// the input, after the parts before it, or, as the options say, is answered in its place, with the
/// index of its worker's next request, and changes nothing. A log that had the auction's rows has
/// the book of the served parts, also after a fault. A fault has its cause, and what went before it
/// was told whole. The faults of lines that have no answer are told apart from the replies, each
/// once and in order.
pub fn serve<R: Threads + Wait + Sync, I: Read + Drop, L: Log, W: Write, E: ErrorPlace>(
    rt: &R,
    alloc: Global,
    source: LoggedInput<I>,
    teller: &mut LiveTeller<L, W, E>,
    options: &Options,
) -> Result<(), Fault>
    requires { HasBook source.auction }
    ensures all { OnOk result ((book : Book) → IsStart options.now source.auction book →
        IfSome (I.remaining source.reader) (λ input.
        ServesAll options.now book (live_says options.now.workers input)
        (told_by L.accepted W.contents teller.old.teller teller.new.teller).whole)) }
    ensures logged { (book : Book) → IsStart options.now source.auction book →
        IfSome (I.remaining source.reader) (λ input.
        IsLoggedBefore (told_by L.accepted W.contents teller.old.teller teller.new.teller)
        options.now book (live_says options.now.workers input)) }
    ensures book { (book : Book) → IsStart options.now source.auction book →
        LogHasBook (L.accepted teller.old.teller.log) book →
        IfSome (I.remaining source.reader) (λ input. HasServedBook
        (L.accepted teller.new.teller.log) options.now book (live_says options.now.workers input)) }
    ensures cause { IfErr result (λ fault. (book : Book) →
        IsStart options.now source.auction book → IfSome (I.remaining source.reader) (λ input.
        IsServeFault (told_by L.accepted W.contents) teller.old.teller teller.new.teller
        options.now book (live_says options.now.workers input) fault)) }
    ensures errors { OnOk result (IfSome (I.remaining source.reader) (λ input.
        AddsTold (E.told teller.old.errors) (E.told teller.new.errors)
        (unanswered options.now (live_says options.now.workers input)))) }
{
    let LoggedInput { auction, reader } = source;
    let left = LiveInput::of(alloc, reader, options.workers)?;
    let session = Session {
        served: Served {
            auction,
            rows: 0,
            before: Before::none(),
        },
        end: LiveEnd::More(left),
    };
    serve_lines(rt, alloc, teller, session, options)
}

// Serves what is left of an input.
fn serve_lines<R: Threads + Wait + Sync, I: Read + Drop, L: Log, W: Write, E: ErrorPlace>(
    rt: &R,
    alloc: Global,
    teller: &mut LiveTeller<L, W, E>,
    session: Session<I>,
    options: &Options,
) -> Result<(), Fault>
    requires { HasBook session.served.auction }
    ensures all { OnOk result ((book : Book) (all : List Says) (start : Told L W) →
        IsServedSoFar I.remaining (told_by L.accepted W.contents start teller.old.teller)
        options.now book all session →
        ServesAll options.now book all
        (told_by L.accepted W.contents start teller.new.teller).whole) }
    ensures cause { IfErr result (λ fault. (book : Book) (all : List Says) (start : Told L W) →
        IsServedSoFar I.remaining (told_by L.accepted W.contents start teller.old.teller)
        options.now book all session →
        IsServeFault (told_by L.accepted W.contents) start teller.new.teller options.now book all
        fault) }
    ensures errors { OnOk result ((rest : List Says) →
        GoesOnTo I.remaining options.now.workers session.end rest →
        AddsTold (E.told teller.old.errors) (E.told teller.new.errors)
        (unanswered options.now rest)) }
{
    let mut session = session;
    for _ in 0..u64::MAX {
        let Some(next) = serve_next(rt, alloc, teller, session, options)? else {
            return Ok(());
        };
        session = next;
    }
    Err(Fault::Read(ReadFault::Read))
}

// Serves the next part, and gives how the input goes on behind it: nothing at its end.
fn serve_next<R: Threads + Wait + Sync, I: Read + Drop, L: Log, W: Write, E: ErrorPlace>(
    rt: &R,
    alloc: Global,
    teller: &mut LiveTeller<L, W, E>,
    session: Session<I>,
    options: &Options,
) -> Result<Option<Session<I>>, Fault>
    requires { HasBook session.served.auction }
    ensures goes_on { IfOk result (λ next. (book : Book) (all : List Says) (start : Told L W) →
        IsServedSoFar I.remaining (told_by L.accepted W.contents start teller.old.teller)
        options.now book all session →
        MatchOption next
        (ServesAll options.now book all
        (told_by L.accepted W.contents start teller.new.teller).whole)
        (IsServedSoFar I.remaining (told_by L.accepted W.contents start teller.new.teller)
        options.now book all)) }
    ensures has { IfOk result (λ next. IfSome next (λ session. HasBook session.served.auction)) }
    ensures cause { IfErr result (λ fault. (book : Book) (all : List Says) (start : Told L W) →
        IsServedSoFar I.remaining (told_by L.accepted W.contents start teller.old.teller)
        options.now book all session →
        IsServeFault (told_by L.accepted W.contents) start teller.new.teller options.now book all
        fault) }
    ensures errors { IfOk result (λ next. (rest : List Says) →
        GoesOnTo I.remaining options.now.workers session.end rest →
        HasTold (E.told teller.old.errors) (E.told teller.new.errors) options.now rest
        (MayGoOnTo I.remaining options.now.workers next)) }
{
    let Session { served, end } = session;
    let Some(left) = pass_fault(alloc, teller, options, &served.before, end)? else {
        return Ok(None);
    };
    let LivePart { input, end } = left.next_part(alloc, most_of_a_part(options, &served.auction))?;
    let part = NextPart { served, input };
    let done = serve_part(rt, alloc, teller, part, options)?;
    tell_past(alloc, teller, options, &done)?;
    let served = done.served;
    Ok(Some(Session { served, end }))
}

// Gives what is left of an input behind its next line, if that has a fault: it is answered, or ends
// the input.
fn pass_fault<I: Drop, L: Log, W: Write, E: ErrorPlace>(
    alloc: Global,
    teller: &mut LiveTeller<L, W, E>,
    options: &Options,
    before: &Before,
    end: LiveEnd<I>,
) -> Result<Option<LiveInput<I>>, Fault>
    ensures passes { IfOk result (λ left. (remaining : I → Option (List ℕ)) (workers : ℕ)
        (rest : List Says) → GoesOnTo remaining workers end rest →
        PassesFault remaining workers options.now (gone_by before.now) left rest
        (told_by L.accepted W.contents teller.old.teller teller.new.teller).whole) }
    ensures stops { IfErr result (λ fault. (remaining : I → Option (List ℕ)) (workers : ℕ)
        (rest : List Says) → GoesOnTo remaining workers end rest →
        (book : Book) (rows : ℕ) →
        IsStop (told_by L.accepted W.contents teller.old.teller teller.new.teller)
        options.now book (gone_by before.now) rows rest fault) }
    ensures errors { IfOk result (λ left. (remaining : I → Option (List ℕ)) (workers : ℕ)
        (rest : List Says) → GoesOnTo remaining workers end rest →
        HasTold (E.told teller.old.errors) (E.told teller.new.errors) options.now rest
        (MayHaveToSay remaining workers left)) }
{
    match end {
        LiveEnd::More(left) => Ok(Some(left)),
        LiveEnd::Fault(met, left) => {
            if ends_at_fault(options) {
                return Err(Fault::Read(met.fault));
            }
            let line = TurnedLine {
                worker: met.worker,
                turned: Turned::Line(met.fault),
            };
            tell_turned(alloc, teller, options, before, line)?;
            Ok(Some(left))
        }
        LiveEnd::All => Ok(None),
    }
}

// Answers a request past its worker's limit behind the rest of its part, if there is one.
fn tell_past<L: Log, W: Write, E: ErrorPlace>(
    alloc: Global,
    teller: &mut LiveTeller<L, W, E>,
    options: &Options,
    done: &ServedPart,
) -> Result<(), Fault>
    ensures told { OnOk result (
        (told_by L.accepted W.contents teller.old.teller teller.new.teller).whole
        [] (past_answer options.now (gone_by done.now.served.before)
        done.now.served.auction.limit done.now.past)) }
    ensures so_far { IfErr result (λ fault. MatchOption done.now.past ⊥ (λ worker.
        AreToldAt (told_by L.accepted W.contents teller.old.teller teller.new.teller) fault
        [] (past_answer options.now (gone_by done.now.served.before)
        done.now.served.auction.limit (Some worker)))) }
    ensures errors { OnOk result (AddsTold (E.told teller.old.errors) (E.told teller.new.errors) []) }
{
    let Some(worker) = done.past else {
        return Ok(());
    };
    let limit = done.served.auction.limit();
    let line = TurnedLine {
        worker: Some(worker),
        turned: Turned::Past(limit),
    };
    tell_turned(alloc, teller, options, &done.served.before, line)
}

/// The histories of parts, one after the other, are one history: it replays from the book with all
/// rows that the parts add, and is what is written if the options ask for the history. No rows of
/// an input come behind a request.
pub fn parts_are_one_history()
    ensures first { (options : Asked) (book : Book) (input : List ℕ) (steps : List Step)
        (rest : List Says) → IsServed options book (live_says options.workers input) steps rest →
        RowsComeFirst steps }
    ensures replays { (options : Asked) (gone : Gone) (book : Book) (steps : List Step) →
        AreStepRuns options book steps → RowsComeFirst steps →
        ReplaysFrom (opening_asked options) (book ++ added_rows steps)
        (served_history options gone steps) }
    ensures text { (options : Asked) (gone : Gone) (steps : List Step) →
        options.rows ≡ false → options.history ≡ true →
        served_text options gone steps ≡ history_text (served_history options gone steps) }
{}
