//! A file that is read from its start.
ghost use Rattle.std.specs.Io.Buffered.{reader_remaining};
ghost use Rattle.std.specs.Prelude.{◌≡◌, IfOk};
ghost use Rattle.byte_texts.specs.UntilEnd.{left_until_end};
ghost use Rattle.log_file.specs.Reading.{bytes_from};

use byte_texts::UntilEnd;
use part_log::AppendFile;
use std::alloc::Global;
use std::io;
use std::io::{BufReader, Read};

/// A file that is read from its start, and stays as it is.
#[derive(Drop)]
pub struct FromStart<'a, F> {
    file: &'a F,
    // The place of the next byte.
    at: u64,
}

impl<'a, F: AppendFile> FromStart<'a, F> {
    /// Of which nothing was read yet.
    pub fn of(file: &'a F) -> FromStart<'a, F>
        ensures { bytes_from F.held result ≡ F.held file.now }
    {
        FromStart { file, at: 0 }
    }

    /// The same through a buffer, to the file's end.
    pub fn buffered(alloc: Global, file: &'a F) -> io::Result<BufReader<UntilEnd<FromStart<'a, F>>>>
        ensures { IfOk result (λ r.
            reader_remaining (left_until_end (bytes_from F.held)) r ≡ F.held file.now) }
    {
        BufReader::new(alloc, UntilEnd::of(FromStart::of(file)))
    }
}

impl<F: AppendFile> Read for FromStart<'_, F> {
    ghost remaining = { λ r. bytes_from F.held r };

    fn read(&mut self, buf: &mut [u8]) -> io::Result<usize> {
        let given = self.file.read_at(self.at, buf)?;
        let Some(at) = self.at.checked_add(given as u64) else {
            return Err(io::Error::from(io::ErrorKind::FileTooLarge));
        };
        self.at = at;
        Ok(given)
    }
}
