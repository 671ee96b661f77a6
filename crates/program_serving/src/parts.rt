//! The run of one part.
ghost use Rattle.std.specs.Prelude.{ℕ, ◌<◌, ◌+◌, ◌^◌, IfErr, IfOk, ◌≡◌, length};
ghost use Rattle.auction_rows.specs.Book.{Book};
ghost use Rattle.auction_text.specs.{Moved.{gone_by}, Scripts.{Asked, asked_of}};
ghost use Rattle.log_opening.specs.Parts.{HasAdded};
ghost use Rattle.phase_floor.specs.Adding.{HasBook, IsSameAuction, IsStartOf};
ghost use Rattle.program_serving.specs.{ServeFaults.{AreNotRunOn}, Serving.{told_by}};
ghost use Rattle.program_serving.specs.inner.Parts.{BeginsAt, BeginsPart, FailsPart, IsBegun, IsFirstNotAdded, IsNotBegun, RunsScripts, ServesDone, gone_with, told_fault};

use crate::limits::take_past;
use crate::telling::{Committed, LiveTeller, tell_committed};
use auction_rows::{Opened, Row};
use auction_run::{FreeGate, Outcome, RunFault, Stopped, run_on};
use auction_text::{Before, CompactInput};
use log_opening::{Refused, add_rows};
use part_log::Log;
use phase_floor::Joined;
use program_opening::{Fault, Options};
use std::alloc::Global;
use std::io::Write;
use std::sync::Wait;
use std::thread::Threads;
use worker_journals::Script;

/// How far an input is served: the auction, how many rows were added to it, and what went before
/// its next part.
#[derive(Drop)]
pub(crate) struct Served {
    pub(crate) auction: Joined,
    pub(crate) rows: u64,
    pub(crate) before: Before,
}

/// A part that is to be performed.
#[derive(Drop)]
pub(crate) struct NextPart {
    pub(crate) served: Served,
    pub(crate) input: CompactInput,
}

/// What is served with a part: how far, and a worker whose script was past its limit, if there is
/// one. Then no request of the part is performed.
#[derive(Drop)]
pub(crate) struct ServedPart {
    pub(crate) served: Served,
    pub(crate) past: Option<u32>,
}

// Adds rows to an auction, behind so many others of its input, and gives them.
fn add_part(
    alloc: Global,
    auction: &mut Joined,
    asked: &[Opened],
    before: u64,
) -> Result<Vec<Row>, Fault>
    requires start { (book : Book) × IsStartOf auction.old book }
    requires counted { before + length asked.now < 2 ^ 64 }
    ensures adds { IfOk result (λ added. (book : Book) → IsStartOf auction.old book →
        HasAdded auction.old auction.new book asked.now added.items) }
    ensures same { IsSameAuction auction.old auction.new }
    ensures refused { IfErr result (λ fault. (book : Book) → IsStartOf auction.old book →
        IsFirstNotAdded auction.old book asked.now before fault) }
{
    match add_rows(alloc, auction, asked) {
        Ok(added) => Ok(added),
        Err(Refused { place, fault }) => Err(Fault::Row(before + place as u64 + 1, fault)),
    }
}

// The fault of a run that stopped: past its limit, a state tells it.
fn fault_of(stopped: Stopped) -> Fault
    ensures { result ≡ told_fault stopped }
{
    match stopped {
        Stopped::Refused(state, RunFault::TooLong) => Fault::Limit(state.limit()),
        Stopped::Refused(_, fault) | Stopped::Failed(fault) => Fault::Run(fault),
    }
}

// Performs the scripts of a part.
fn run_part<R: Threads + Wait + Sync>(
    rt: &R,
    alloc: Global,
    auction: Joined,
    scripts: Vec<Script>,
    options: &Options,
) -> Result<Outcome, Fault>
    ensures runs { IfOk result (λ outcome. (book : Book) →
        BeginsAt options.now auction scripts.items book →
        RunsScripts options.now book scripts.items outcome) }
    ensures has { IfOk result (λ outcome. HasBook auction → HasBook outcome.state) }
    ensures refused { IfErr result (λ fault. (book : Book) →
        BeginsAt options.now auction scripts.items book →
        AreNotRunOn options.now fault book scripts.items) }
{
    match run_on(rt, alloc, auction, scripts, options.policy(), &FreeGate) {
        Ok(outcome) => Ok(outcome),
        Err(stopped) => Err(fault_of(stopped)),
    }
}

// A part whose rows are added, and what is done of it behind them.
#[derive(Drop)]
struct BegunPart {
    auction: Joined,
    // How many rows of the input are added with it.
    rows: u64,
    before: Before,
    // What goes before the next part, but for the phases of this one.
    next: Before,
    added: Vec<Row>,
    scripts: Vec<Script>,
    past: Option<u32>,
}

// Adds the rows of a part, and takes the requests out of its scripts if one is past its limit and
// this does not end the input.
fn begin_part(alloc: Global, part: NextPart, options: &Options) -> Result<BegunPart, Fault>
    requires { HasBook part.served.auction }
    ensures begins { IfOk result (λ begun. (book : Book) → BeginsPart options.now part book →
        IsBegun options.now book (asked_of part.input) begun.auction begun.added.items
        begun.scripts.items begun.past) }
    ensures before { IfOk result (λ begun. begun.before ≡ part.served.before) }
    ensures next { IfOk result (λ begun.
        gone_by begun.next ≡ gone_with (gone_by part.served.before) 0 begun.scripts.items) }
    ensures rows { IfOk result (λ begun.
        begun.rows ≡ part.served.rows + length part.input.rows.items) }
    ensures has { IfOk result (λ begun. HasBook begun.auction) }
    ensures cause { IfErr result (λ fault. (book : Book) → BeginsPart options.now part book →
        IsNotBegun options.now book (gone_by part.served.before) part.served.rows
        (asked_of part.input) fault) }
{
    let NextPart { served, input } = part;
    let Served {
        auction,
        rows,
        before,
    } = served;
    let Some(rows_read) = rows.checked_add(input.rows.len() as u64) else {
        return Err(Fault::Run(RunFault::NumberFull));
    };
    // A worker's limit counts its rows, and not the views and refusals of the parts before.
    let mut auction = auction.for_next_run();
    let added = add_part(alloc, &mut auction, input.rows.as_slice(), rows)?;
    let mut scripts = input.scripts;
    let past = take_past(alloc, &auction, &mut scripts, options);
    let Some(next) = before.with_scripts(scripts.as_slice()) else {
        // There are no more scripts than workers, so a count of requests is past 64 bits.
        let _ = auction.workers();
        return Err(Fault::Run(RunFault::NumberFull));
    };
    Ok(BegunPart {
        auction,
        rows: rows_read,
        before,
        next,
        added,
        scripts,
        past,
    })
}

// Performs the scripts of a part, logs all rows that it adds, and then writes what is asked for.
fn perform_part<R: Threads + Wait + Sync, L: Log, W: Write, E>(
    rt: &R,
    alloc: Global,
    teller: &mut LiveTeller<L, W, E>,
    begun: BegunPart,
    options: &Options,
) -> Result<ServedPart, Fault>
    requires next { gone_by begun.next ≡ gone_with (gone_by begun.before) 0 begun.scripts.items }
    ensures serves { IfOk result (λ done. (book : Book) (asked : Asked) →
        IsBegun options.now book asked begun.auction begun.added.items begun.scripts.items
        begun.past → ServesDone options.now book (gone_by begun.before) asked done.past
        done.served (told_by L.accepted W.contents teller.old.teller teller.new.teller).whole) }
    ensures rows { IfOk result (λ done. done.served.rows ≡ begun.rows) }
    ensures has { IfOk result (λ done. HasBook begun.auction → HasBook done.served.auction) }
    ensures cause { IfErr result (λ fault. (book : Book) (asked : Asked) (before : ℕ) →
        IsBegun options.now book asked begun.auction begun.added.items begun.scripts.items
        begun.past →
        FailsPart (told_by L.accepted W.contents teller.old.teller teller.new.teller)
        options.now book (gone_by begun.before) before asked fault) }
    ensures errors { teller.new.errors ≡ teller.old.errors }
{
    let BegunPart {
        auction,
        rows,
        before,
        next,
        added,
        scripts,
        past,
    } = begun;
    let outcome = run_part(rt, alloc, auction, scripts, options)?;
    let Some(next) = next.with_phases(outcome.hot.len()) else {
        return Err(Fault::Run(RunFault::NumberFull));
    };
    let committed = Committed {
        before,
        rows: added,
        history: outcome.history,
    };
    tell_committed(alloc, teller, options, &committed)?;
    let served = Served {
        auction: outcome.state,
        rows,
        before: next,
    };
    Ok(ServedPart { served, past })
}

/// Adds the rows of a part, performs its scripts, logs all rows that this adds, and then writes
/// what is asked for of it. If a script is past its worker's limit, and this does not end the
/// input, only the rows are served.
pub(crate) fn serve_part<R: Threads + Wait + Sync, L: Log, W: Write, E>(
    rt: &R,
    alloc: Global,
    teller: &mut LiveTeller<L, W, E>,
    part: NextPart,
    options: &Options,
) -> Result<ServedPart, Fault>
    requires { HasBook part.served.auction }
    ensures serves { IfOk result (λ done. (book : Book) → BeginsPart options.now part book →
        ServesDone options.now book (gone_by part.served.before) (asked_of part.input) done.past
        done.served (told_by L.accepted W.contents teller.old.teller teller.new.teller).whole) }
    ensures rows { IfOk result (λ done.
        done.served.rows ≡ part.served.rows + length part.input.rows.items) }
    ensures has { IfOk result (λ done. HasBook done.served.auction) }
    ensures cause { IfErr result (λ fault. (book : Book) → BeginsPart options.now part book →
        FailsPart (told_by L.accepted W.contents teller.old.teller teller.new.teller)
        options.now book (gone_by part.served.before) part.served.rows (asked_of part.input)
        fault) }
    ensures errors { teller.new.errors ≡ teller.old.errors }
{
    let begun = begin_part(alloc, part, options)?;
    perform_part(rt, alloc, teller, begun, options)
}
