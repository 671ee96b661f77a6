//! Plain lines, read as they come into a buffer.
ghost use Rattle.std.specs.Io.KnownBytes.{IsAtEnd};
ghost use Rattle.std.specs.Prelude.{ℕ, ◌≡◌, ◌<◌, ◌≤◌, ◌++◌, drop, false, length, take, Some, vec_len, IfOk, List, OnOk};
ghost use Rattle.record_reading.specs.{Lines.{EndsLine}, Reading.{HasNoInputFault}};
ghost use Rattle.record_reading.specs.declared.inputs.TheConstants.{MOST_RECORDS};
ghost use Rattle.auction_reading.specs.inner.Said.{HasRead, read_by};

use crate::plain_text::{Progress, read_plain};
use record_reading::{ReadFault, lines_end, read_more};
use std::io::Read;

/// How the plain lines of a text are read.
pub(crate) trait LineReading {
    /// What reading asks of the type.
    ghost can_read: { Type 0 };

    /// So many bytes are waited for before lines are read, unless the input ends.
    fn wanted(&self) -> usize;

    /// Reads the plain lines at the front of a text, and returns the place after them. How far that
    /// is, no clause says: what is left is read by `csv`.
    fn read_front(&mut self, progress: &mut Progress, text: &[u8]) -> Result<usize, ReadFault>
        requires can { can_read }
        requires ends { EndsLine text.now }
        requires room { progress.old.count ≤ MOST_RECORDS }
        ensures within { IfOk result (λ at. at ≤ length text.now) }
        ensures reads { IfOk result (λ at.
            HasRead (read_by progress.old) text.now (read_by progress.new) (drop at text.now)) }
        ensures fails { HasNoInputFault result };
}

/// By the thread that calls, after each read.
#[derive(Clone, Copy)]
pub(crate) struct Alone;

impl LineReading for Alone {
    ghost can_read = { Unit };

    fn wanted(&self) -> usize {
        0
    }

    fn read_front(&mut self, progress: &mut Progress, text: &[u8]) -> Result<usize, ReadFault> {
        read_plain(progress, text)
    }
}

// Fills a buffer on from a place as `read_more` does, until so much of it is filled.
fn fill<R: Read>(
    buffer: &mut [u8],
    held: usize,
    wanted: usize,
    reader: &mut R,
) -> Result<usize, ReadFault>
    requires held { held ≤ length buffer.old }
    ensures len { length buffer.new ≡ length buffer.old }
    ensures more { IfOk result (λ now. held ≤ now) }
    ensures within { IfOk result (λ now. now ≤ length buffer.new) }
    ensures reads { IfOk result (λ now. (all : List ℕ) → R.remaining reader.old ≡ Some all →
        (left : List ℕ) × (R.remaining reader.new ≡ Some left)
        × (take held buffer.old ++ all ≡ take now buffer.new ++ left)) }
    ensures end { IfOk result (λ now. now ≡ held → held < length buffer.old →
        IsAtEnd (R.remaining reader.new)) }
    ensures fails { HasNoInputFault result }
{
    let mut filled = held;
    for _ in 0..u64::MAX {
        let now = read_more(buffer, filled, reader)?;
        if now == filled {
            return Ok(now);
        }
        if now >= wanted {
            return Ok(now);
        }
        filled = now;
    }
    Err(ReadFault::Read)
}

// Reads the plain lines at the front of what a buffer holds, if a line ends in its part from a
// place on, and moves what is after them to the front. Returns how much that is, and whether it is
// the beginning of a line, of which more may come.
fn take_lines<L: LineReading>(
    lines: &mut L,
    progress: &mut Progress,
    buffer: &mut [u8],
    from: usize,
    filled: usize,
) -> Result<(usize, bool), ReadFault>
    requires can { L.can_read }
    requires from { from ≤ filled }
    requires filled { filled ≤ length buffer.old }
    requires room { progress.old.count ≤ MOST_RECORDS }
    ensures len { length buffer.new ≡ length buffer.old }
    ensures within { IfOk result (λ p. p.0 ≤ filled) }
    ensures some { IfOk result (λ p. p.1 ≡ false → 0 < p.0) }
    ensures reads { IfOk result (λ p. HasRead (read_by progress.old) (take filled buffer.old)
        (read_by progress.new) (take p.0 buffer.new)) }
    ensures fails { HasNoInputFault result }
{
    let end = from + lines_end(&buffer[from..filled]);
    if end == from {
        return Ok((filled, true));
    }
    let at = lines.read_front(progress, &buffer[..end])?;
    buffer.copy_within(at..filled, 0);
    Ok((filled - at, at == end))
}

/// Reads plain lines as long as they come, and returns how much of the buffer holds what was read
/// after them: nothing if the input has ended with them.
pub(crate) fn read_lines<L: LineReading, R: Read>(
    lines: &mut L,
    progress: &mut Progress,
    buffer: &mut [u8],
    reader: &mut R,
) -> Result<usize, ReadFault>
    requires can { L.can_read }
    requires room { progress.old.count ≤ MOST_RECORDS }
    ensures within { IfOk result (λ filled. filled ≤ length buffer.new) }
    ensures end { IfOk result (λ filled. filled ≡ 0 → filled < length buffer.new →
        IsAtEnd (R.remaining reader.new)) }
    ensures workers { OnOk result
        (vec_len progress.new.input.scripts ≡ vec_len progress.old.input.scripts) }
    ensures room { OnOk result (progress.new.count ≤ MOST_RECORDS) }
    ensures reads { IfOk result (λ filled. (all : List ℕ) → R.remaining reader.old ≡ Some all →
        (left : List ℕ) × (R.remaining reader.new ≡ Some left)
        × HasRead (read_by progress.old) all (read_by progress.new)
        (take filled buffer.new ++ left)) }
    ensures fails { HasNoInputFault result }
{
    let wanted = lines.wanted();
    let mut filled = 0;
    for _ in 0..u64::MAX {
        let now = fill(buffer, filled, wanted, reader)?;
        if now == filled {
            return Ok(filled);
        }
        let (left, goes_on) = take_lines(lines, progress, buffer, filled, now)?;
        filled = left;
        if !goes_on {
            return Ok(filled);
        }
    }
    Err(ReadFault::Read)
}
