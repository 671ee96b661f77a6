//! A reader that is read to its end, and not again.
ghost use Rattle.std.specs.{Io.{KnownBytes.{ReadConsumes}, ReadsAtMost}, IoError.{error_kind}};
ghost use Rattle.std.specs.Prelude.{◌≡◌, ◌≢◌, IfErr};
ghost use Rattle.byte_texts.specs.UntilEnd.{left_until_end};

use std::io;
use std::io::{ErrorKind, Read};

/// A reader that is not read on after it has given its end: a terminal would wait for another one.
/// A read that a signal interrupts is tried again.
#[derive(Drop)]
pub struct UntilEnd<R> {
    reader: R,
    is_ended: bool,
}

impl<R: Read> UntilEnd<R> {
    /// A reader that was not read to its end yet.
    pub fn of(reader: R) -> UntilEnd<R>
        ensures { left_until_end R.remaining result ≡ R.remaining reader }
    {
        UntilEnd {
            reader,
            is_ended: false,
        }
    }
}

// One read, tried again as often as a signal interrupts it.
fn read_through<R: Read>(reader: &mut R, buf: &mut [u8]) -> io::Result<usize>
    ensures bound { ReadsAtMost result buf.new }
    ensures bytes { ReadConsumes (R.remaining reader.old) (R.remaining reader.new) result buf.new }
    ensures retried { IfErr result (λ e. error_kind e ≢ ErrorKind.Interrupted) }
{
    for _ in 0..u64::MAX {
        match reader.read(buf) {
            Err(e) if e.kind() == ErrorKind::Interrupted => {}
            done => return done,
        }
    }
    Err(io::Error::from(ErrorKind::TimedOut))
}

impl<R: Read> Read for UntilEnd<R> {
    ghost remaining = { λ r. left_until_end R.remaining r };

    fn read(&mut self, buf: &mut [u8]) -> io::Result<usize> {
        if self.is_ended {
            return Ok(0);
        }
        let given = read_through(&mut self.reader, buf)?;
        self.is_ended = given == 0 && !buf.is_empty();
        Ok(given)
    }
}
