//! Where what is cut off a log is kept.
ghost use Rattle.std.specs.Prelude.{◌≡◌, None, IfErr};
ghost use Rattle.log_file.specs.Faults.{text_cause};

use crate::faults::LogCause;
use crate::opening::sync_folder;
use crate::streams::is_same_file;
use std::alloc::Global;
use std::fs::{File, OpenOptions};
use std::io::{ErrorKind, Write};
use std::rt::Files;
use std::{fs, io};

// Opens a regular file to add to its end, and makes it if it is missing. It follows no link: what
// that leads to was not meant to be written.
fn open_unlinked<R: Files<File = File>>(rt: &R, path: &str) -> io::Result<File> {
    let mut how = OpenOptions::new();
    let named = match fs::symlink_metadata(rt, path) {
        Ok(named) if named.is_file() => named,
        Ok(_) => return Err(io::Error::other("not a regular file")),
        Err(why) if why.kind() == ErrorKind::NotFound => {
            return how.append(true).create_new(true).open(rt, path);
        }
        Err(why) => return Err(why),
    };
    let file = how.append(true).open(rt, path)?;
    if !is_same_file(&named, &file.metadata()?) {
        return Err(io::Error::other("not a regular file"));
    }
    Ok(file)
}

// Adds a line to a file that is not the log, and has the disk keep it.
fn add_line<R: Files<File = File>>(
    rt: &R,
    alloc: Global,
    log: &str,
    path: &str,
    line: &[u8],
) -> io::Result<()> {
    let mut file = open_unlinked(rt, path)?;
    if is_same_file(&file.metadata()?, &fs::metadata(rt, log)?) {
        return Err(io::Error::other("it is the log"));
    }
    file.write_all(line)?;
    file.write_all(b"\n")?;
    file.sync_all()?;
    sync_folder(rt, alloc, path)
}

/// Adds what is to be cut off the log at a path to the file of that name with `.cut`, on a line of
/// its own: nothing, if that is nothing.
pub fn keep_tail<R: Files<File = File>, T>(
    rt: &R,
    alloc: Global,
    path: &str,
    tail: &[u8],
) -> Result<(), LogCause<T>>
    ensures of_no_text { IfErr result (λ cause. text_cause cause ≡ None) }
{
    if tail.is_empty() {
        return Ok(());
    }
    let Ok(mut name) = path.to_owned(alloc) else {
        return Err(LogCause::Memory);
    };
    if name.push_str(".cut").is_err() {
        return Err(LogCause::Memory);
    }
    match add_line(rt, alloc, path, name.as_str(), tail) {
        Ok(()) => Ok(()),
        Err(why) if why.kind() == ErrorKind::OutOfMemory => Err(LogCause::Memory),
        Err(why) => Err(LogCause::Tail(why)),
    }
}
