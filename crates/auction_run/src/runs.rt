//! A run from an opening book on.
ghost use Rattle.std.specs.Prelude.{◌≡◌, [], IfOk, IfErr};
ghost use Rattle.item_shards.specs.OpeningBooks.{opening_of, rows_of_book};
ghost use Rattle.run_phases.specs.Beginning.{AreShort, HasShards, HasQuotas, HaveWorkers};
ghost use Rattle.run_phases.specs.Boards.{IsUpToDate};
ghost use Rattle.auction_run.specs.Checks.{IsFoundFirst};
ghost use Rattle.auction_run.specs.Runs.{AnswersRun, HasShownAll, HasShownFirst};
ghost use Rattle.auction_run.specs.inner.Shown.{AnswersShown};

use crate::checks::check;
use crate::scripts::{Scripts, share};
use auction_rows::Policy;
use item_shards::OpeningBook;
use phase_boards::{Board, NoBoard};
use phase_floor::Joined;
use phase_workers::Gate;
use run_phases::{Outcome, RunFault, Workload, run_from};
use std::alloc::Global;
use std::sync::Wait;
use std::thread::Threads;

/// Performs the scripts of 1 to 16 workers in joined and split phases by turns, from an opening
/// book on, each worker but the first on a thread of its own in each phase.
///
/// Its history holds every request of every script exactly once, each worker's commits in commit
/// order and none before an earlier splittable store of its script (`serves` of `IsOutcome`). It
/// replays on an auction of one thread (`replays`): every highest bid, bidder, count, rating and
/// top list shown is the one computed afresh from the rows committed before it.
///
/// The first four faults are found first, in their order, exactly for their causes. `Spawn` comes
/// only if there is a thread to start, and `NumberFull` never: commit numbers suffice. A fault gives
/// no part of a history. No clause says when memory is refused, nor which of several faults of a
/// phase is told: it is `Spawn` before that of the least worker, and this before that of the close.
/// The state left can be gone on with, by `run_on`. A list of requests is copied to a `Script`, of
/// 32 bytes per request, and then let go.
pub fn run<R: Threads + Wait + Sync, G: Gate + Sync, S: Scripts>(
    rt: &R,
    alloc: Global,
    book: &OpeningBook,
    scripts: S,
    policy: Policy,
    gate: &G,
) -> Result<Outcome, RunFault>
    ensures { AnswersRun (opening_of book.now) (rows_of_book book.now) policy (S.asked scripts)
        result }
{
    run_shown(rt, alloc, book, scripts, policy, gate, &mut NoBoard)
}

/// The same run, of which a board is given the rows of each phase once it has closed, in order. A
/// board that errs ends it with `Memory`, after the faults of the phase itself. After a fault the
/// board has the phases that it was given, which are the first ones of such a run; it may have
/// refused one more. After one of the first four it is as it was, and can be shown another run.
pub fn run_shown<R: Threads + Wait + Sync, G: Gate + Sync, B: Board, S: Scripts>(
    rt: &R,
    alloc: Global,
    book: &OpeningBook,
    scripts: S,
    policy: Policy,
    gate: &G,
    board: &mut B,
) -> Result<Outcome, RunFault>
    requires { B.has board.old (opening_of book.now) (rows_of_book book.now) [] }
    ensures answer { AnswersRun (opening_of book.now) (rows_of_book book.now) policy
        (S.asked scripts) result }
    ensures board { IfOk result
        (HasShownAll B.has (opening_of book.now) (rows_of_book book.now) board.new) }
    ensures up_to_date { IfOk result (λ outcome. IsUpToDate B.has board.new outcome.state) }
    ensures board_after_fault { IfErr result (HasShownFirst B.has B.has_refused
        (opening_of book.now) (rows_of_book book.now) policy (S.asked scripts) board.new) }
    ensures untouched { IfErr result (λ fault. IsFoundFirst fault → board.new ≡ board.old) }
{
    check(book, &scripts, policy)?;
    let compact = share(alloc, scripts)?;
    let work = Workload {
        scripts: &compact,
        policy,
        gate,
    };
    run_checked(rt, alloc, book, work, board)
}

// A run of scripts that were checked, with a board as `run_shown` has it.
fn run_checked<R: Threads + Wait + Sync, G: Gate + Sync, B: Board>(
    rt: &R,
    alloc: Global,
    book: &OpeningBook,
    work: Workload<'_, G>,
    board: &mut B,
) -> Result<Outcome, RunFault>
    requires workers { HaveWorkers (rows_of_book book.now) work.scripts.now }
    requires shards { HasShards work.policy }
    requires quotas { HasQuotas work.policy }
    requires short { AreShort (rows_of_book book.now) work.scripts.now }
    requires board { B.has board.old (opening_of book.now) (rows_of_book book.now) [] }
    ensures { AnswersShown B.has B.has_refused (opening_of book.now) (rows_of_book book.now)
        work.entry.policy work.entry.scripts.now board.new result }
{
    let workers = work.scripts.as_slice().len() as u32;
    let state = Joined::resume(alloc, book, workers, work.policy.shards)?;
    run_from(rt, alloc, state, work, board)
}
