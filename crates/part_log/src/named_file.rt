//! A file of the system, and the name at which a start finds it.
ghost use Rattle.std.specs.Prelude.{false, None};

use crate::file_log::AppendFile;
use byte_texts::UntilEnd;
use std::fs::File;
use std::io::{ErrorKind, Read, Seek, SeekFrom, Write};
use std::os::unix::fs::MetadataExt;
use std::rt::Files;
use std::{fs, io};

/// An open file of the system, and the path at which a start looks for it.
#[derive(Drop)]
pub struct NamedFile<'a, R> {
    /// The files of the system.
    pub files: &'a R,
    /// The path.
    pub path: &'a str,
    /// The file, to which the path led when it was opened.
    pub file: File,
}

impl<R: Files> AppendFile for NamedFile<'_, R> {
    // What a file of the system holds, what its disk keeps, and where its name leads, is not known
    // to contracts.
    ghost held = { λ _. None };

    ghost synced = { λ _. None };

    ghost is_lost = { λ _. false };

    fn is_at_its_name(&self) -> io::Result<bool> {
        let open = self.file.metadata()?;
        match fs::metadata(self.files, self.path) {
            Ok(named) => Ok(named.dev() == open.dev() && named.ino() == open.ino()),
            Err(why) if why.kind() == ErrorKind::NotFound => Ok(false),
            Err(why) => Err(why),
        }
    }

    fn read_at(&self, at: u64, buffer: &mut [u8]) -> io::Result<usize> {
        let mut file = &self.file;
        file.seek(SeekFrom::Start(at))?;
        // It reads again where a signal interrupts it.
        UntilEnd::of(file).read(buffer)
    }

    fn append(&mut self, bytes: &[u8]) -> io::Result<()> {
        self.file.write_all(bytes)
    }

    fn cut(&mut self, len: u64) -> io::Result<()> {
        self.file.set_len(len)
    }

    fn sync(&mut self) -> io::Result<()> {
        self.file.sync_data()
    }
}
