//! A history of which no line is endless.
ghost use Rattle.std.specs.Prelude.{◌≡◌};
ghost use Rattle.rubis_check.specs.ShortLines.{left_of_lines};

use std::io;
use std::io::{ErrorKind, Read};

/// The most bytes of a line: no reply is nearly as long.
const LONGEST_LINE: usize = 65_536;

/// A reader that gives the bytes of another one, and fails at a line that has more than 65,536: a
/// device or a file of another kind would take all memory.
#[derive(Drop)]
pub struct ShortLines<I> {
    reader: I,
    // How many bytes of the last line were given.
    len: usize,
}

impl<I: Read> ShortLines<I> {
    /// A reader that was not read yet.
    pub fn of(reader: I) -> ShortLines<I>
        ensures { left_of_lines I.remaining result ≡ I.remaining reader }
    {
        ShortLines { reader, len: 0 }
    }
}

// Whether a byte ends a line.
fn ends_line(byte: &u8) -> bool {
    *byte == b'\n'
}

impl<I: Read> Read for ShortLines<I> {
    ghost remaining = { λ r. left_of_lines I.remaining r };

    fn read(&mut self, buf: &mut [u8]) -> io::Result<usize> {
        if self.len > LONGEST_LINE {
            let why = "a line has more than 65536 bytes";
            return Err(io::Error::new(ErrorKind::InvalidData, why));
        }
        // One byte more than the longest line has: its line feed, or the sign of a longer one.
        let room = buf.len().min(LONGEST_LINE + 1 - self.len);
        let given = self.reader.read(&mut buf[..room])?;
        self.len = match buf[..given].iter().rposition(ends_line) {
            Some(last) => given.saturating_sub(last + 1),
            None => self.len.saturating_add(given),
        };
        Ok(given)
    }
}
