//! From the bytes of rows and scripts to the bytes of the replies: the run of the scripts, what the
//! report shows at its end, and what is fixed of the program with one worker.
ghost use mathlib.Core.List.{IsPrefix};
ghost use Rattle.std.specs.Prelude.{◌≡◌, OnOk, IfErr, IfSome, List, [], false, None, IfOk, IsTrue, MatchOption, ℕ};
ghost use Rattle.auction_rows.specs.Book.{Book};
ghost use Rattle.auction_rows.specs.declared.rows.Row.{Row as Stored};
ghost use Rattle.byte_texts.specs.declared.writing.WriteFault.{WriteFault};
ghost use Rattle.program_opening.specs.declared.options.Options.{Options as Asked};
ghost use Rattle.auction_program.specs.Execution.{Answers, ArePartWritten, AreWritten, IsCausedBy, IsOneWritten, IsUnwritten, IsAnsweredBy};
ghost use Rattle.auction_program.specs.inner.Performing.{IsFrom, PerformsAsked, RefusesAsked};
ghost use Rattle.auction_program.specs.inner.Views.{AreViews, IsEnd};

use crate::asked::{AskedRun, AskedTexts, Performed};
use crate::texts::{report_lines, write_texts};
use auction_rows::Opening;
use auction_run::{FreeGate, Outcome, WindowBoard, run, run_shown};
use auction_text::{ReportLines, read_scripts_by_threads};
use auction_window::{PhaseLog, Publisher, Told, Window, WindowName};
use item_shards::OpeningBook;
use phase_floor::Joined;
use program_opening::{Fault, Options};
use std::alloc::Global;
use std::io::{Read, Write};
use std::marker::Brand;
use std::sync::Wait;
use std::thread::Threads;

/// Opens an auction with the rows that the reader gives, performs its scripts, with one thread per
/// worker in the phases that gain by it, and writes the replies, the history or the rows, and then
/// the report, as the options say. The first byte is written once all scripts are performed. If the
/// writer then fails, a prefix of the text was written; if memory is refused for a text, the texts
/// before it; and after any other fault nothing.
pub fn execute<R: Threads + Wait + Sync, I: Read + Drop, W: Write>(
    rt: &R,
    alloc: Global,
    reader: I,
    writer: &mut W,
    options: &Options,
) -> Result<(), Fault>
    ensures answers { OnOk result (IfSome (I.remaining reader) (λ input.
        Answers options.now input (AreWritten (W.contents writer.old) (W.contents writer.new)))) }
    ensures part { result ≡ Err (Fault.Write WriteFault.Write) →
        IfSome (I.remaining reader) (λ input. Answers options.now input
        (ArePartWritten (W.contents writer.old) (W.contents writer.new))) }
    ensures memory { result ≡ Err (Fault.Write WriteFault.Memory) →
        IfSome (I.remaining reader) (λ input. Answers options.now input
        (IsOneWritten options.now (W.contents writer.old) (W.contents writer.new))) }
    ensures unwritten { IfErr result (λ fault. IsUnwritten fault → writer.new ≡ writer.old) }
    ensures cause { IfErr result (λ fault. IfSome (I.remaining reader) (λ input.
        IsCausedBy options.now input fault)) }
{
    let input = read_scripts_by_threads(rt, alloc, reader, options.workers)?;
    let book = OpeningBook::new(alloc, options.opening(), input.rows)?;
    let asked = AskedRun {
        book: &book,
        scripts: input.scripts,
        options,
    };
    let performed = perform(rt, alloc, asked)?;
    let texts = AskedTexts {
        options,
        rows: book.rows(),
        performed: &performed,
    };
    write_texts(rt, alloc, writer, texts)?;
    Ok(())
}

// What is told of an outcome.
fn told_of(outcome: Outcome, lines: Option<ReportLines>) -> Performed
    ensures { result ≡ record { history = outcome.history; hot = outcome.hot; lines = lines } }
{
    let Outcome {
        history,
        hot,
        state: _,
    } = outcome;
    Performed {
        history,
        hot,
        lines,
    }
}

// Performs the run. If a report is asked for, its lines are read through a window that was told of
// all phases.
fn perform<R: Threads + Wait + Sync>(
    rt: &R,
    alloc: Global,
    asked: AskedRun<'_>,
) -> Result<Performed, Fault>
    ensures performs { IfOk result (PerformsAsked asked.entry) }
    ensures unasked { IfOk result (λ performed.
        ¬ IsTrue asked.entry.options.now.report → performed.lines ≡ None) }
    ensures cause { IfErr result (RefusesAsked asked.entry) }
{
    if asked.options.report {
        return perform_watched::<Brand, R>(rt, alloc, PhaseLog::new(), asked);
    }
    let AskedRun {
        book,
        scripts,
        options,
    } = asked;
    let outcome = run(rt, alloc, book, scripts, options.policy(), &FreeGate)?;
    Ok(told_of(outcome, None))
}

// With a publisher of one window, which is ended whatever the run answers.
fn perform_watched<J: WindowName, R: Threads + Wait + Sync>(
    rt: &R,
    alloc: Global,
    log: PhaseLog,
    asked: AskedRun<'_>,
) -> Result<Performed, Fault>
    requires log { log ≡ J.log }
    requires book { IsFrom asked J.opening J.rows }
    requires report { IsTrue asked.options.now.report }
    ensures performs { IfOk result (PerformsAsked asked.entry) }
    ensures cause { IfErr result (RefusesAsked asked.entry) }
{
    let (publisher, mut windows) = Publisher::<J>::new(rt, alloc, log, asked.book, 1)?;
    let mut board = WindowBoard::new(publisher);
    let performed = watch(rt, alloc, &mut board, &mut windows[0], asked);
    let WindowBoard { publisher, told: _ } = board;
    publisher.end(rt);
    performed
}

// Shows each phase to the window, and reads the lines through it at the end.
fn watch<J: WindowName, R: Threads + Wait + Sync>(
    rt: &R,
    alloc: Global,
    board: &mut WindowBoard<J>,
    window: &mut Window<J>,
    asked: AskedRun<'_>,
) -> Result<Performed, Fault>
    requires publisher { board.old.publisher ≡ record { phases = []; failed = false } }
    requires told { board.old.told ≡ None }
    requires book { IsFrom asked J.opening J.rows }
    ensures performs { IfOk result (PerformsAsked asked.entry) }
    ensures cause { IfErr result (RefusesAsked asked.entry) }
{
    let AskedRun {
        book,
        scripts,
        options,
    } = asked;
    let outcome = run_shown(rt, alloc, book, scripts, options.policy(), &FreeGate, board)?;
    let told = board.told.take();
    let lines = last_lines(alloc, told, window, &outcome.state, options.opening());
    Ok(told_of(outcome, lines))
}

// The lines of the report at the end of a run: none if memory was refused for them.
fn last_lines<J: WindowName>(
    alloc: Global,
    told: Option<Told<J>>,
    window: &mut Window<J>,
    state: &Joined,
    opening: Opening,
) -> Option<ReportLines>
    requires { opening ≡ J.opening }
    ensures { IfSome result (λ shown. (all : List (List Stored)) (book : Book) →
        MatchOption told (all ≡ []) (λ last. last ≡ all) →
        IsEnd J.opening J.rows all all state.now book →
        AreViews J.opening book shown.categories.items shown.users.items) }
{
    learn_last(window, told);
    report_lines(alloc, window, state, opening).ok()
}

// Tells a window what was told last.
fn learn_last<J: WindowName>(window: &mut Window<J>, told: Option<Told<J>>)
    ensures { (all : List (List Stored)) → MatchOption told (all ≡ []) (λ last. last ≡ all) →
        IsPrefix all window.new }
{
    if let Some(told) = told {
        window.learn(told);
    }
}

/// With one worker the answer is a function of the input and the options.
pub fn one_worker_has_one_answer()
    ensures { (options : Asked) (input text added other more : List ℕ) → options.workers ≡ 1 →
        IsAnsweredBy options input text added → IsAnsweredBy options input other more →
        (text ≡ other) × (added ≡ more) }
{}
