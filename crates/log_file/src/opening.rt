//! How the file of a log is opened.
use crate::faults::{LogCause, unread};
use crate::streams::{HeldPlaces, stream_cause};
use std::alloc::Global;
use std::fs::{File, OpenOptions, TryLockError};
use std::io;
use std::rt::Files;

/// A file, and the path at which it is.
#[derive(Drop)]
pub struct FileAt<'a, F> {
    pub file: F,
    pub path: &'a str,
}

// The folder of a path.
fn folder_of(path: &str) -> &str {
    match path.rfind('/') {
        Some(0) => "/",
        Some(at) => &path[..at],
        None => ".",
    }
}

/// Has the disk keep the name of a file that may be new, in the folder where it is: a link to it
/// may be in another.
pub(crate) fn sync_folder<R: Files<File = File>>(
    rt: &R,
    alloc: Global,
    path: &str,
) -> io::Result<()> {
    let path = rt.canonicalize(alloc, path)?;
    let folder = File::open(rt, folder_of(path.as_str()))?;
    folder.sync_all()
}

// Opens a file to read it and to add to its end, and makes it if it is missing. A read of what is
// not a regular file might never end.
fn open_regular<R: Files<File = File>, T>(rt: &R, path: &str) -> Result<File, LogCause<T>> {
    let mut how = OpenOptions::new();
    let file = match how.read(true).append(true).create(true).open(rt, path) {
        Ok(file) => file,
        Err(why) => return Err(unread(why)),
    };
    match file.metadata() {
        Ok(metadata) if metadata.is_file() => match stream_cause(rt, &metadata) {
            Some(cause) => Err(cause),
            None => Ok(file),
        },
        Ok(_) => Err(LogCause::NotAFile),
        Err(why) => Err(unread(why)),
    }
}

/// Opens the file of a log to read it and to add to its end, and makes it if it is missing. It is
/// no standard stream, gets the place of none, and no other program may have it open.
pub fn open_locked<R: Files<File = File>, T>(
    rt: &R,
    alloc: Global,
    path: &str,
) -> Result<File, LogCause<T>> {
    let _places = match HeldPlaces::take(rt) {
        Ok(places) => places,
        Err(why) => return Err(unread(why)),
    };
    let file = open_regular(rt, path)?;
    match file.try_lock() {
        Ok(()) => {}
        Err(TryLockError::WouldBlock) => return Err(LogCause::Locked),
        Err(TryLockError::Error(why)) => return Err(LogCause::NoLock(why)),
    }
    match sync_folder(rt, alloc, path) {
        Ok(()) => Ok(file),
        Err(why) => Err(unread(why)),
    }
}
