//! The file of a log: how it is opened, and goes on as a log of commits.
ghost use Rattle.std.specs.List.{AllByRecursion};
ghost use Rattle.std.specs.Prelude.{◌≡◌, ◌<◌, ◌*◌, ℕ, false, drop, length, IfErr, IfOk, IfSome};
ghost use Rattle.split_engine.specs.Rules.{most_before};
ghost use Rattle.log_file.specs.Faults.{text_fault};
ghost use Rattle.part_log.specs.Files.{HoldsSoMany};
ghost use Rattle.application_log.specs.{Faults.{IsOpenFault}, Lines.{IsTail}};
ghost use Rattle.application_log.specs.Logs.{IsOpenedFrom, Opens};

use crate::commit_log::CommitLog;
use crate::loggable::{Loggable, MOST_LINES};
use crate::opening::{OpenFault, OpenedLog, open_log};
use log_file::{FileAt, FromStart, LogCause, LogFileFault, keep_tail, open_locked};
use part_log::{AppendFile, FileLog, NamedFile};
use split_engine::{Application, MOST_KEYS};
use std::alloc::Global;
use std::fs::File;
use std::rt::Files;

/// A log that was opened, and the table that it leaves.
#[derive(Drop)]
pub struct LoggedTable<A: Application, F: AppendFile + Drop> {
    /// The table after the requests of its lines.
    pub table: Vec<A::Record>,
    /// The log, which goes on behind these lines.
    pub log: CommitLog<FileLog<F>>,
    /// How many bytes were cut off: the beginning of a line that was being written.
    pub cut: usize,
}

// Performs the requests of the lines of a file, which stays as it is.
fn read_file<A: Loggable, F: AppendFile>(
    alloc: Global,
    file: &F,
    table: Vec<A::Record>,
) -> Result<OpenedLog<A>, OpenFault>
    requires fits { (n : ℕ) × (n < MOST_KEYS * MOST_LINES) × AllByRecursion (A.fits n) table.items }
    ensures opens { IfOk result (λ opened. IfSome (F.held file.now)
        (Opens A.rules A.line A.is_in_range
        table.items opened.table.items opened.lines opened.kept)) }
    ensures tail { IfOk result (λ opened. IfSome (F.held file.now) (λ bytes.
        opened.tail.items ≡ drop opened.kept bytes)) }
    ensures cut { IfOk result (λ opened. IsTail A.is_cut opened.tail.items) }
    ensures kept { IfOk result (λ opened. HoldsSoMany (F.held file.now) opened.kept) }
    ensures few { IfOk result (λ opened. opened.lines < MOST_LINES) }
    ensures goes_on { IfOk result (λ opened.
        (n : ℕ) × (n < most_before) × AllByRecursion (A.fits n) opened.table.items) }
    ensures len { IfOk result (λ opened. length opened.table.items ≡ length table.items) }
    ensures fault { IfErr result (λ fault. IfSome (F.held file.now)
        (IsOpenFault A.rules A.line A.is_in_range A.is_cut (length table.items) fault)) }
{
    let Ok(mut reader) = FromStart::buffered(alloc, file) else {
        return Err(OpenFault::Memory);
    };
    open_log::<A, _>(alloc, &mut reader, table)
}

/// Opens the log in a file that is open and locked: performs the requests of its lines on the
/// opening table. What is behind them is kept elsewhere, and then cut off.
///
/// `fits` is as for `open_log`.
pub fn open_file<A: Loggable, R: Files<File = File>, F: AppendFile + Drop>(
    rt: &R,
    alloc: Global,
    at: FileAt<'_, F>,
    table: Vec<A::Record>,
) -> Result<LoggedTable<A, F>, LogFileFault<OpenFault>>
    requires fits { (n : ℕ) × (n < MOST_KEYS * MOST_LINES) × AllByRecursion (A.fits n) table.items }
    ensures opens { IfOk result (λ opened. IfSome (F.held at.entry.file)
        (IsOpenedFrom A.rules A.line A.is_in_range A.is_cut table.items
        opened.table.items opened.log.lines opened.cut opened.log.log)) }
    ensures found { IfOk result (λ opened. opened.log.log.found ≡ opened.log.log.accepted) }
    ensures goes_on { IfOk result (λ opened. opened.log.log.has_ended ≡ false) }
    ensures few { IfOk result (λ opened. opened.log.lines < MOST_LINES) }
    ensures fits { IfOk result (λ opened.
        (n : ℕ) × (n < most_before) × AllByRecursion (A.fits n) opened.table.items) }
    ensures len { IfOk result (λ opened. length opened.table.items ≡ length table.items) }
    ensures refused { IfErr result (λ fault. IfSome (text_fault fault) (λ of.
        IfSome (F.held at.entry.file)
        (IsOpenFault A.rules A.line A.is_in_range A.is_cut (length table.items) of))) }
{
    let FileAt { file, path } = at;
    let opened = match read_file::<A, F>(alloc, &file, table) {
        Ok(opened) => opened,
        Err(fault) => return Err(LogFileFault::at(alloc, path, LogCause::Text(fault))),
    };
    let OpenedLog {
        table,
        lines,
        kept,
        tail,
    } = opened;
    if let Err(cause) = keep_tail(rt, alloc, path, tail.as_slice()) {
        return Err(LogFileFault::at(alloc, path, cause));
    }
    match FileLog::open(file, kept) {
        Ok(log) => Ok(LoggedTable {
            table,
            log: CommitLog::new(alloc, log, lines),
            cut: tail.len(),
        }),
        Err(why) => Err(LogFileFault::at(alloc, path, LogCause::Write(why))),
    }
}

/// Opens the log at a path, which no other program may have open, and performs the requests of its
/// lines on the opening table. The beginning of a line that was being written is cut off its end,
/// and kept in the file of that name with `.cut`. After a fault the log is as it was, but for that
/// beginning: if it was cut off, it is kept.
///
/// `fits` is as for `open_log`.
pub fn open_log_file<'a, A: Loggable, R: Files<File = File>>(
    rt: &'a R,
    alloc: Global,
    path: &'a str,
    table: Vec<A::Record>,
) -> Result<LoggedTable<A, NamedFile<'a, R>>, LogFileFault<OpenFault>>
    requires fits { (n : ℕ) × (n < MOST_KEYS * MOST_LINES) × AllByRecursion (A.fits n) table.items }
    ensures few { IfOk result (λ opened. opened.log.lines < MOST_LINES) }
    ensures fits { IfOk result (λ opened.
        (n : ℕ) × (n < most_before) × AllByRecursion (A.fits n) opened.table.items) }
    ensures len { IfOk result (λ opened. length opened.table.items ≡ length table.items) }
{
    match open_locked(rt, alloc, path) {
        Ok(file) => {
            let files = rt;
            let file = NamedFile { files, path, file };
            open_file::<A, R, _>(rt, alloc, FileAt { file, path }, table)
        }
        Err(cause) => Err(LogFileFault::at(alloc, path, cause)),
    }
}
