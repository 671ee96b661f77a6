//! Runs that go on from what another left, and the parts of a history, which one run after the
//! other performs, as a law.
ghost use Rattle.std.specs.Prelude.{List, length, IfOk, IfErr, ◌≡◌, ◌≤◌, ◌++◌, ◌∷◌, []};
ghost use Rattle.auction_rows.specs.{Book.{Book}, History.{book_after, ReplaysFrom}};
ghost use Rattle.auction_rows.specs.declared.limits.TheConstants.{MOST_WORKERS};
ghost use Rattle.auction_rows.specs.declared.{rows.Entry.{Entry}, values.Opening.{Opening}};
ghost use Rattle.phase_floor.specs.States.{IsBookOf, JoinedState};
ghost use Rattle.run_phases.specs.Boards.{IsUpToDate};
ghost use Rattle.auction_run.specs.GoingOn.{AnswersNextRun, GivesBack, HasShownFirstNext, HasShownNext, IsReadyFor};
ghost use Rattle.auction_run.specs.Parts.{ArePartsFrom, HaveLeft, book_after_parts, history_of};
ghost use Rattle.auction_run.specs.inner.Shown.{AnswersShownNext};

use crate::checks::{Stopped, check_on};
use crate::scripts::{Scripts, share};
use auction_rows::Policy;
use phase_boards::{Board, NoBoard};
use phase_floor::Joined;
use phase_workers::Gate;
use run_phases::{Outcome, Workload, run_from};
use std::alloc::Global;
use std::sync::Wait;
use std::thread::Threads;

/// Goes on from a state that a run left, or with which an auction was resumed: performs scripts of
/// its workers as `run` does. The history is that of these scripts, and replays from each book of
/// the state; the state left has the book after it. Phases and indexes count from 0 again, and
/// nothing is hot at first. `TooLong` is a script of more than 1,000,000 requests, or one that has
/// with its worker's rows more than the state's limit: 1,000,000, or `MOST_COMMITS` if it lasts.
/// The first four faults are found first, in their order, exactly for their causes, and give the
/// state back as it was; after another it is gone.
pub fn run_on<R: Threads + Wait + Sync, G: Gate + Sync, S: Scripts>(
    rt: &R,
    alloc: Global,
    state: Joined,
    scripts: S,
    policy: Policy,
    gate: &G,
) -> Result<Outcome, Stopped>
    ensures { AnswersNextRun state policy (S.asked scripts) result }
{
    run_on_shown(rt, alloc, state, scripts, policy, gate, &mut NoBoard)
}

/// The same, of which a board that is up to date with the state is given the rows of each phase,
/// after all that it has. It is up to date with the state left, and so the next part can be shown
/// to it too; no board is up to date with a lasting state. A board that errs ends the run with
/// `Memory`. After a fault it has the phases that it was given, which are the first ones of such a
/// run; it may have refused one more. If the state is given back, the board is as it was, so it is
/// up to date with it and can be shown another run.
pub fn run_on_shown<R: Threads + Wait + Sync, G: Gate + Sync, B: Board, S: Scripts>(
    rt: &R,
    alloc: Global,
    state: Joined,
    scripts: S,
    policy: Policy,
    gate: &G,
    board: &mut B,
) -> Result<Outcome, Stopped>
    requires { B.can_be_watched → IsUpToDate B.has board.old state }
    ensures answer { AnswersNextRun state policy (S.asked scripts) result }
    ensures board { IfOk result (HasShownNext B.has state board.old board.new) }
    ensures up_to_date { IfOk result (λ outcome.
        IsUpToDate B.has board.old state → IsUpToDate B.has board.new outcome.state) }
    ensures board_after_fault { IfErr result (HasShownFirstNext B.has B.has_refused state policy
        (S.asked scripts) board.old board.new) }
    ensures untouched { IfErr result (λ stopped. GivesBack stopped → board.new ≡ board.old) }
{
    if let Err(fault) = check_on(&state, &scripts, policy) {
        return Err(Stopped::Refused(state, fault));
    }
    let compact = share(alloc, scripts)?;
    let work = Workload {
        scripts: &compact,
        policy,
        gate,
    };
    run_on_checked(rt, alloc, state, work, board)
}

// The same of scripts that were checked, with a board as `run_on_shown` has it.
fn run_on_checked<R: Threads + Wait + Sync, G: Gate + Sync, B: Board>(
    rt: &R,
    alloc: Global,
    state: Joined,
    work: Workload<'_, G>,
    board: &mut B,
) -> Result<Outcome, Stopped>
    requires ready { IsReadyFor state work.policy work.scripts.now }
    requires few { length work.scripts.now ≤ MOST_WORKERS }
    requires board { B.can_be_watched → IsUpToDate B.has board.old state }
    ensures { AnswersShownNext B.has B.has_refused state work.entry.policy work.entry.scripts.now
        board.old board.new result }
{
    let state = state.for_next_run();
    let outcome = run_from(rt, alloc, state, work, board)?;
    Ok(outcome)
}

/// The parts of an auction, each performed from the state that the one before left, are one
/// history: it replays from the first book and leaves the last one, and every request of an earlier
/// part is in it before every one of a later part. A state begins with no parts, and has one more
/// after each run that goes on from it.
pub fn parts_replay()
    ensures replays { (opening : Opening) (rows : Book) (parts : List (List Entry)) →
        ArePartsFrom opening rows parts → ReplaysFrom opening rows (history_of parts) }
    ensures left { (opening : Opening) (rows : Book) (parts : List (List Entry)) →
        book_after_parts opening rows parts ≡ book_after opening rows (history_of parts) }
    ensures in_order { (earlier later : List (List Entry)) →
        history_of (earlier ++ later) ≡ history_of earlier ++ history_of later }
    ensures none { (state : JoinedState) (rows : Book) →
        IsBookOf state rows → HaveLeft state.opening rows [] state }
    ensures more { (opening : Opening) (rows : Book) (parts : List (List Entry))
        (old new : JoinedState) (next : List Entry) →
        HaveLeft opening rows parts old → new.opening ≡ opening →
        ((book : Book) → IsBookOf old book → ReplaysFrom old.opening book next) →
        ((book : Book) → IsBookOf old book → IsBookOf new (book_after old.opening book next)) →
        HaveLeft opening rows (parts ++ next ∷ []) new }
{}
