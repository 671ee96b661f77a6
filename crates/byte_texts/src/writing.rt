//! The writing of a text by calls of `write`, and why it was not written whole.
ghost use Rattle.std.specs.Io.{KnownBytes.{Appends, WriteAppends}, WritesAtMost};
ghost use Rattle.std.specs.{IoError.{error_kind}, Prelude.{◌≡◌, ◌≢◌, [], IfErr, OnOk}};
ghost use Rattle.byte_texts.specs.Writing.{IsPartWritten};

use std::io;
use std::io::{ErrorKind, Write};
use thiserror::Error;

/// Why a text was not written whole.
#[derive(Clone, Copy, Debug, PartialEq, Eq, Drop, Error)]
pub enum WriteFault {
    /// A write or the flush failed, or a write took no byte: a prefix of the text was written.
    #[error("output cannot be written")]
    Write,
    /// No memory was left: no byte was written.
    #[error("no memory")]
    Memory,
}

// One write, tried again as often as a signal interrupts it.
#[inline(always)]
fn write_through<W: Write>(writer: &mut W, part: &[u8]) -> io::Result<usize>
    ensures bound { WritesAtMost result part.now }
    ensures bytes { WriteAppends (W.contents writer.old) (W.contents writer.new) result part.now }
    ensures retried { IfErr result (λ e. error_kind e ≢ ErrorKind.Interrupted) }
{
    for _ in 0..u64::MAX {
        match writer.write(part) {
            Err(e) if e.kind() == ErrorKind::Interrupted => {}
            done => return done,
        }
    }
    Err(io::Error::from(ErrorKind::TimedOut))
}

/// Writes a part of a text by calls of `write` on the rest that is left: after `Write` a prefix of
/// the part was written.
#[inline(always)]
pub fn write_part<W: Write>(writer: &mut W, part: &[u8]) -> Result<(), WriteFault>
    ensures whole { OnOk result (Appends (W.contents writer.old) (W.contents writer.new) part.now) }
    ensures part { IfErr result (λ fault. (fault ≡ WriteFault.Write) ×
        IsPartWritten (W.contents writer.old) (W.contents writer.new) part.now) }
{
    let mut written = 0;
    while written < part.len() {
        match write_through(writer, &part[written..]) {
            Ok(0) | Err(_) => return Err(WriteFault::Write),
            Ok(count) => written += count,
        }
    }
    Ok(())
}

/// Flushes: nothing is written, and `Write` says that it failed.
pub fn flush<W: Write>(writer: &mut W) -> Result<(), WriteFault>
    ensures kept { OnOk result (Appends (W.contents writer.old) (W.contents writer.new) []) }
    ensures fault { IfErr result (λ fault. (fault ≡ WriteFault.Write) ×
        IsPartWritten (W.contents writer.old) (W.contents writer.new) []) }
{
    match writer.flush() {
        Ok(()) => Ok(()),
        Err(_) => Err(WriteFault::Write),
    }
}

/// Writes the last part of a text, and flushes: after `Write` a prefix of the part was written.
pub fn write_last<W: Write>(writer: &mut W, part: &[u8]) -> Result<(), WriteFault>
    ensures whole { OnOk result (Appends (W.contents writer.old) (W.contents writer.new) part.now) }
    ensures part { IfErr result (λ fault. (fault ≡ WriteFault.Write) ×
        IsPartWritten (W.contents writer.old) (W.contents writer.new) part.now) }
{
    write_part(writer, part)?;
    flush(writer)
}
