//! What is wrong with the file of a log.
ghost use Rattle.log_file.specs.Faults.{NamesFile};

use part_log::LogFault;
use std::alloc::Global;
use std::fmt::Display;
use std::io;
use thiserror::Error;

/// What is wrong with the file of a log, whose text may be refused by a `T`.
#[derive(Debug, Drop, Error)]
#[error_bound(T: Display)]
pub enum LogCause<T> {
    /// It could not be opened or read, or its folder not read.
    #[error("cannot be read: {0}")]
    Read(io::Error),
    /// It could not be cut or synced.
    #[error("cannot be written: {0}")]
    Write(io::Error),
    /// It is a pipe or a device.
    #[error("not a regular file")]
    NotAFile,
    /// It is standard input: what is logged would be asked for again, without an end.
    #[error("is the input")]
    IsInput,
    /// It is standard output, whose replies are no lines of a log.
    #[error("is the output")]
    IsOutput,
    /// It is standard error, so not even this can be told.
    #[error("is the error output")]
    IsErrors,
    /// Another program has it.
    #[error("in use")]
    Locked,
    /// It could not be locked, so another program may have it.
    #[error("cannot be locked: {0}")]
    NoLock(io::Error),
    /// Its text is refused.
    #[error("{0}")]
    Text(T),
    /// Lines were not added to it.
    #[error("{0}")]
    Log(LogFault),
    /// What is to be cut off it could not be kept.
    #[error("cut bytes cannot be kept: {0}")]
    Tail(io::Error),
    /// No memory was left.
    #[error("no memory")]
    Memory,
}

/// Why a log is not opened, or takes no more lines. One that is not opened is as it was, but for a
/// cut line, which may have been taken off: then it is kept in the file of that name with `.cut`.
#[derive(Debug, Drop, Error)]
#[error_bound(T: Display)]
pub enum LogFileFault<T> {
    /// This is wrong with the file of this name.
    #[error("{0}: {1}")]
    At(String, LogCause<T>),
    /// No memory was left for its name.
    #[error("log: no memory")]
    Memory,
}

impl<T: Drop> LogFileFault<T> {
    /// The fault of the file at this path. For want of memory it names no file and no cause.
    pub fn at(alloc: Global, path: &str, cause: LogCause<T>) -> LogFileFault<T>
        ensures { NamesFile path.now cause result }
    {
        match path.to_owned(alloc) {
            Ok(name) => LogFileFault::At(name, cause),
            Err(_) => LogFileFault::Memory,
        }
    }

    /// Whether it can't be told on standard error, because the log is there.
    pub fn is_of_errors(&self) -> bool {
        matches!(self, LogFileFault::At(_, LogCause::IsErrors))
    }
}

/// A call that reads failed, or had no memory.
pub(crate) fn unread<T>(why: io::Error) -> LogCause<T> {
    match why.kind() {
        io::ErrorKind::OutOfMemory => LogCause::Memory,
        _ => LogCause::Read(why),
    }
}
