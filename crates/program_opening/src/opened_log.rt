//! What is opened of a log.
ghost use Rattle.std.specs.Prelude.{[], None, IfErr, IfOk, IfSome};
ghost use Rattle.phase_floor.specs.Adding.{HasBook, IsSameAuction, IsStartOf};
ghost use Rattle.log_opening.specs.Opening.{IsRefusedBy, TellsFirst};
ghost use Rattle.program_opening.specs.Opened.{IsOpenedFrom, text_fault};

use crate::faults::Fault;
use byte_texts::WriteFault;
use log_file::{FileAt, LogCause, LogFileFault, keep_tail, open_locked};
use log_opening::{OpenFault, cut_log, read_log};
use part_log::{AppendFile, FileLog, NamedFile};
use phase_floor::Joined;
use std::alloc::Global;
use std::fs::File;
use std::io::Write;
use std::rt::Files;

/// A log that was opened.
#[derive(Drop)]
pub struct OpenedLog<F: AppendFile + Drop> {
    /// The auction with the rows that it has.
    pub auction: Joined,
    /// The log.
    pub log: FileLog<F>,
    /// How many bytes were cut off: the beginning of a row that was being written.
    pub cut: usize,
}

/// Opens the log in a file that is open and locked: adds its rows to an auction, and writes their
/// text to `told`. What is behind them is kept elsewhere, and then cut off.
pub fn open_file<R: Files<File = File>, F: AppendFile + Drop, W: Write>(
    rt: &R,
    alloc: Global,
    at: FileAt<'_, F>,
    auction: Joined,
    told: &mut W,
) -> Result<OpenedLog<F>, Fault>
    requires { IsStartOf auction [] }
    ensures opens { IfOk result (λ opened. IsOpenedFrom (F.held at.entry.file)
        (W.contents told.old) (W.contents told.new) opened.auction opened.log opened.cut) }
    ensures same { IfOk result (λ opened. IsSameAuction auction opened.auction) }
    ensures refused { IfErr result (λ fault. IfSome (text_fault fault) (λ of.
        IfSome (F.held at.entry.file) (IsRefusedBy of auction))) }
    ensures told { IfErr result (λ _. TellsFirst (F.held at.entry.file)
        (W.contents told.old) (W.contents told.new)) }
{
    let FileAt { file, path } = at;
    let logged = match read_log(alloc, &file, auction, told) {
        Ok(logged) => logged,
        Err(OpenFault::Write) => return Err(Fault::Write(WriteFault::Write)),
        Err(fault) => return Err(LogFileFault::at(alloc, path, LogCause::Text(fault)).into()),
    };
    let cut = logged.tail.len();
    if let Err(cause) = keep_tail(rt, alloc, path, logged.tail.as_slice()) {
        return Err(LogFileFault::at(alloc, path, cause).into());
    }
    match cut_log(file, &logged) {
        Ok(log) => Ok(OpenedLog {
            auction: logged.auction,
            log,
            cut,
        }),
        Err(why) => Err(LogFileFault::at(alloc, path, LogCause::Write(why)).into()),
    }
}

/// Opens the log at a path, which no other program may have open, adds its rows to an auction, and
/// writes their text to `told`. The beginning of a row that was being written is cut off its end,
/// and kept in the file of that name with `.cut`. After a fault the log is as it was, but for that
/// beginning: if it was cut off, it is kept.
pub fn open_log<'a, R: Files<File = File>, W: Write>(
    rt: &'a R,
    alloc: Global,
    path: &'a str,
    auction: Joined,
    told: &mut W,
) -> Result<OpenedLog<NamedFile<'a, R>>, Fault>
    requires { IsStartOf auction [] }
    ensures opens { IfOk result (λ opened. IsOpenedFrom None
        (W.contents told.old) (W.contents told.new) opened.auction opened.log opened.cut) }
    ensures same { IfOk result (λ opened. IsSameAuction auction opened.auction) }
    ensures has { IfOk result (λ opened. HasBook opened.auction) }
{
    match open_locked(rt, alloc, path) {
        Ok(file) => {
            let files = rt;
            let file = NamedFile { files, path, file };
            open_file(rt, alloc, FileAt { file, path }, auction, told)
        }
        Err(cause) => Err(LogFileFault::at(alloc, path, cause).into()),
    }
}
