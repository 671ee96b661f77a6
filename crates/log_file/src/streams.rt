//! The standard streams, which a log must not be.
use crate::faults::LogCause;
use std::fs::{File, Metadata};
use std::os::unix::fs::MetadataExt;
use std::rt::Files;
use std::{fs, io};

/// Files at the places of standard input, output and error, where these are closed: so no file that
/// is opened then gets such a place. A folder can be neither read nor written.
#[derive(Drop)]
pub(crate) struct HeldPlaces {
    _first: File,
    _second: File,
    _third: File,
}

impl HeldPlaces {
    /// Takes the places that are free.
    pub(crate) fn take<R: Files<File = File>>(rt: &R) -> io::Result<HeldPlaces> {
        Ok(HeldPlaces {
            _first: File::open(rt, "/")?,
            _second: File::open(rt, "/")?,
            _third: File::open(rt, "/")?,
        })
    }
}

/// Whether two files are the same one.
pub(crate) fn is_same_file(one: &Metadata, other: &Metadata) -> bool {
    one.dev() == other.dev() && one.ino() == other.ino()
}

// Whether a file is the one that is open at a place, if the system shows that.
fn is_at<R: Files>(rt: &R, file: &Metadata, place: &str) -> bool {
    fs::metadata(rt, place).is_ok_and(|open| is_same_file(file, &open))
}

/// What is wrong with a file if it is a standard stream, under whatever name.
pub(crate) fn stream_cause<R: Files, T>(rt: &R, file: &Metadata) -> Option<LogCause<T>> {
    if is_at(rt, file, "/proc/self/fd/0") {
        Some(LogCause::IsInput)
    } else if is_at(rt, file, "/proc/self/fd/1") {
        Some(LogCause::IsOutput)
    } else if is_at(rt, file, "/proc/self/fd/2") {
        Some(LogCause::IsErrors)
    } else {
        None
    }
}
